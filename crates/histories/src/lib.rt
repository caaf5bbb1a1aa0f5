// What is promised of a table over every history of calls.
#![tactic(auto)]
