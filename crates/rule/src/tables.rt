// Tables of a rule, from the lists of the host.
ghost use Rattle.std.specs.Prelude.{◌≡◌, ◌++◌, take, replicate};
ghost use Rattle.rule.specs.Tables.{outside};

// Whether some entry of the list lies outside its limits.
pub fn some_outside(list: &[u8], least: u8, greatest: u8) -> bool
    ensures { result ≡ outside least greatest list.now }
{
    // a line for each type of entry: rates and charges have theirs beside their limits
    list.iter().any(|&entry| entry < least || entry > greatest)
}

// A table of N entries: those of the list, then blanks; what is beyond N is left out.
pub fn padded<T: Copy, const N: usize>(list: &[T], blank: T) -> [T; N]
    ensures { result ≡ take N (list.now ++ replicate N blank) }
{
    let mut table = [blank; N];
    let len = list.len().min(N);
    table[..len].copy_from_slice(&list[..len]);
    table
}
