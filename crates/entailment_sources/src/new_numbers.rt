// The numbers that kept disjuncts have among the kept ones of their entry.
ghost use Rattle.std.specs.Prelude.{◌≡◌, ◌≤◌, length};
ghost use Rattle.trimming.specs.KeptMembers.{new_number};
ghost use Rattle.entailment_sources.specs.NewNumbers.{flagged};

// The number, from 0, that disjunct j of an entry has among the kept ones: how many of the bytes before its own are 1.
pub fn new_number(flags: &[u8], j: usize) -> usize
    requires { j ≤ length flags.now }
    ensures value { result ≡ new_number (flagged flags.now) j }
    ensures upper_bound { result ≤ j }
{
    let mut number = 0;
    for i in 0..j {
        if flags[i] == 1 {
            number = number + 1;
        }
    }
    number
}
