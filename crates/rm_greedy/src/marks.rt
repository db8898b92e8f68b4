// Marks of contracts: the number at a contract's place is 1 where it is marked.

ghost use Rattle.std.specs.Prelude.{◌≡◌, ◌<◌, ◌≤◌, ◌==◌, ℕ, [], length, filter, take, slice_index};
ghost use Rattle.rm_sets.specs.Sets.{IsSetBelow};
ghost use Rattle.rm_greedy.specs.Additions.{AreMarks};

// Takes the marks off these contracts.
pub(crate) fn clear(marks: &mut [u32], contracts: &[u32])
    requires { IsSetBelow (length marks.old) contracts.now }
    ensures length { length marks.new ≡ length marks.old }
    ensures none { AreMarks contracts.now [] marks.new }
{
    for i in 0..contracts.len() {
        marks[contracts[i] as usize] = 0;
    }
}

// Writes those of the contracts that are marked to the front of the list, and says how many there are.
pub(crate) fn write_marked(list: &mut [u32], marks: &[u32], contracts: &[u32]) -> usize
    requires marks { IsSetBelow (length marks.now) contracts.now }
    requires space { length contracts.now ≤ length list.old }
    ensures length { length list.new ≡ length list.old }
    ensures within { result ≤ length contracts.now }
    ensures written { take result list.new ≡ filter (λ x. slice_index marks.now x == 1) contracts.now }
{
    let mut count = 0;
    for i in 0..contracts.len() {
        let x = contracts[i];
        if marks[x as usize] == 1 {
            list[count] = x;
            count += 1;
        }
    }
    count
}
