// Which library this is: a server's header and library must be of one version.
ghost use Rattle.mastarik.specs.Version.{TellsVersion};

#[unsafe(no_mangle)]
pub extern "C" fn mastarik_version() -> u32
    ensures { TellsVersion result }
{
    mastarik::mastarik_version()
}
