// Names of 1 to 16 bytes.
ghost use Rattle.std.specs.Prelude.{◌≡◌};
ghost use Rattle.workspace.specs.Names.{is_bad_name, holds_name};

// How many bytes a name may have.
pub const LONGEST_NAME: usize = 16;

// Whether a name is empty or too long.
#[tactic(auto, unfolding(crate::specs::Names::is_bad_name))]
pub fn is_bad_name(name: &[u8]) -> bool
    ensures { result ≡ is_bad_name name.now }
{
    name.is_empty() || LONGEST_NAME < name.len()
}

// Whether the first bytes of 16 are this name.
#[tactic(auto, unfolding(crate::specs::Names::holds_name))]
pub fn holds_name(stored: [u8; LONGEST_NAME], len: usize, name: &[u8]) -> bool
    ensures { result ≡ holds_name name.now stored len }
{
    len <= LONGEST_NAME && numbers::io::equals(&stored[..len], name)
}
