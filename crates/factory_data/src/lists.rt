// Members of sets, as lists of numbers.
ghost use Rattle.std.specs.Prelude.{◌≡◌, ◌≤◌, length};
ghost use Rattle.arena.specs.Lists.{all, mem?, common as commonOf};
ghost use Rattle.arena.specs.Runs.{Holds};

// Whether x is one of the list. A slice's own `contains` goes by fours and is slower: most of the time of `inter` is spent here.
pub fn contains(list: &[u64], x: u64) -> bool
    ensures { result ≡ mem? x list.now }
{
    for y in list {
        if *y == x {
            return true;
        }
    }
    false
}

// Whether all of these are of the list.
pub fn contains_all(list: &[u64], these: &[u64]) -> bool
    ensures { result ≡ all (λ x. mem? x list.now) these.now }
{
    these.iter().all(|x| contains(list, *x))
}

// Those of the first list that are in the second, at the front of `run`; how many.
pub fn common(left: &[u64], right: &[u64], run: &mut [u64]) -> usize
    requires { length left.now ≤ length run.old }
    ensures { Holds (commonOf left.now right.now) run.old result run.new }
{
    let mut n: usize = 0;
    for x in left {
        if contains(right, *x) {
            run[n] = *x;
            n += 1;
        }
    }
    n
}
