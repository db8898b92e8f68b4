// The contracts that were offered and not chosen.

ghost use Rattle.std.specs.Prelude.{◌≡◌, ◌≤◌, length, take};
ghost use Rattle.rm_sets.specs.Sets.{has, IsSet, minus};

// Whether contract x is in a set.
pub(crate) fn holds(set: &[u32], x: u32) -> bool
    requires { IsSet set.now }
    ensures { result ≡ has x set.now }
{
    set.binary_search(&x).is_ok()
}

// Writes the offered contracts that aren't chosen to the front of the list, and says how many there are.
pub(crate) fn write_refused(list: &mut [u32], offered: &[u32], chosen: &[u32]) -> usize
    requires chosen { IsSet chosen.now }
    requires space { length offered.now ≤ length list.old }
    ensures length { length list.new ≡ length list.old }
    ensures within { result ≤ length offered.now }
    ensures written { take result list.new ≡ minus offered.now chosen.now }
{
    let mut count = 0;
    for i in 0..offered.len() {
        let x = offered[i];
        if !holds(chosen, x) {
            list[count] = x;
            count += 1;
        }
    }
    count
}
