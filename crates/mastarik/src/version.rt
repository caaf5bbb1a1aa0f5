// Which library this is: a server's header and library must be of one version.
ghost use Rattle.mastarik.specs.Version.{TellsVersion};

// 2.0.0: ten thousands, hundreds, ones.
const VERSION: u32 = 20000;

pub fn mastarik_version() -> u32
    ensures { TellsVersion result }
{
    VERSION
}
