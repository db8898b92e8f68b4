//! Working space that a caller lends.

ghost use Rattle.std.specs.Prelude.{◌≡◌, IfOk};

use crate::NoMemory;
use std::alloc::Global;
use std::marker::Model;
use std::test::Fail;

/// Room for so many contracts (in `list` and in `marks`) and so many nodes (in `counts`). What the three hold between two calls
/// has no meaning.
#[derive(Drop)]
pub struct Room {
    pub list: Vec<u32>,
    pub marks: Vec<u32>,
    pub counts: Vec<u32>,
}

impl Model for Room {
    ghost use Rattle.std.specs.Prelude.{min, vec_len};
    ghost use Rattle.rm_choice.specs.Size.{Space};

    ghost Value = { Space };

    ghost view = { λ r. record { contracts = min (vec_len r.list) (vec_len r.marks); nodes = vec_len r.counts; list = r.list.items } };
}

impl Room {
    /// Room for so many contracts and nodes. It takes all memory that the calls need to which it is lent.
    pub fn new(alloc: Global, contracts: u32, nodes: u32) -> Result<Room, NoMemory>
        ensures contracts { IfOk result (λ r. r.contracts ≡ contracts) }
        ensures nodes { IfOk result (λ r. r.nodes ≡ nodes) }
    {
        Ok(Room {
            list: vec![in alloc; 0; contracts as usize]?,
            marks: vec![in alloc; 0; contracts as usize]?,
            counts: vec![in alloc; 0; nodes as usize]?,
        })
    }
}

#[test]
fn has_both_numbers(rt: HostRuntime) -> Result<(), Fail> {
    let room = Room::new(rt.alloc(), 3, 2)?;
    assert_eq!(rt;
        (room.list.len(), room.marks.len(), room.counts.len()),
        (3, 3, 2)
    );
    Ok(())
}
