//! Lists of distinct numbers in one buffer, as rank lists and lists of choices.
#![tactic(auto)]

mod builder;
mod lists;

pub use builder::{ListFault, ListsBuilder};
pub use lists::{Lists, NoMemory};

#[cfg(test)]
mod tests {
    use super::*;
    use std::test::Fail;

    #[test]
    fn builds_and_finds(rt: HostRuntime) -> Result<(), Fail> {
        let mut builder = ListsBuilder::new(rt.alloc(), 2, 3, 2)?;
        assert!(rt; builder.row(0, 5) == Ok(()));
        assert!(rt; builder.push(1) == Ok(()));
        assert!(rt; builder.push(1) == Err(ListFault::Repeated));
        assert!(rt; builder.row(0, 6) == Err(ListFault::RowRepeated(5)));
        assert!(rt; builder.push(2) == Ok(()));
        assert!(rt; builder.push(0) == Err(ListFault::TooMany));
        assert!(rt; builder.push(2) == Err(ListFault::Repeated));
        let lists = builder.finish(rt.alloc())?;
        assert_eq!(rt; lists.list(0), [1, 2].as_slice());
        assert_eq!(rt; lists.list(1), [].as_slice());
        assert!(rt; lists.place(0, 2) == Some(1));
        assert!(rt; lists.place(0, 0) == None);
        assert!(rt; lists.len() == 2);
        let other = lists.with(rt.alloc(), 1, &[0])?;
        assert_eq!(rt; other.list(0), [1, 2].as_slice());
        assert_eq!(rt; other.list(1), [0].as_slice());
        let copy = other.copy(rt.alloc())?;
        assert_eq!(rt;
            (copy.len(), copy.list(0), copy.list(1)),
            (2, [1, 2].as_slice(), [0].as_slice())
        );
        Ok(())
    }

    #[test]
    fn pushes_lists(rt: HostRuntime) -> Result<(), Fail> {
        let mut lists = Lists::with_capacity(rt.alloc(), 2, 2)?;
        lists.push(&[3])?;
        assert_eq!(rt;
            (lists.len(), lists.list(0), lists.place(0, 3)),
            (1, [3].as_slice(), Some(0))
        );
        Ok(())
    }
}
