// Why a folder, or a command's own file, gives nothing.

use rm_base::{ReadFault, Refusal};
use thiserror::Error;

/// Why no case was loaded: the first refusal of the folder's files, a shelf that failed at the file of this number, or want of
/// memory.
#[derive(Clone, Copy, Debug, PartialEq, Eq, Error)]
pub enum LoadFault {
    #[error("refused")]
    Refused(Refusal),
    #[error("read fault")]
    Read(u8),
    #[error("no memory")]
    NoMemory,
}

/// Why a command's own file gives nothing: its first refusal, or want of memory.
pub type OwnFault = ReadFault;

#[cfg(test)]
mod tests {
    use super::*;
    use std::test::Fail;

    #[test]
    fn says_why(rt: HostRuntime) -> Result<(), Fail> {
        let refusal = Refusal {
            code: 10,
            file: 1,
            a: 0,
            b: 0,
        };
        let refused = format!(in rt.alloc(); "{}", LoadFault::Refused(refusal))?;
        assert_eq!(rt; refused.as_str(), "refused");
        let failed = format!(in rt.alloc(); "{}", LoadFault::Read(1))?;
        assert_eq!(rt; failed.as_str(), "read fault");
        let wanting = format!(in rt.alloc(); "{}", LoadFault::NoMemory)?;
        assert_eq!(rt; wanting.as_str(), "no memory");
        Ok(())
    }
}
