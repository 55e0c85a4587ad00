ghost use Rattle.std.specs.Prelude.{◌≡◌, ◌+◌, ◌-◌, ◌≤◌, ◌++◌, length, pos, replicate, take};
ghost use Rattle.tcel_num.specs.Words.{element, with_element, copied};

/// The element of the array of `size` words at `first`, and 0 where the index is out of range.
pub fn element(cells: &[i64], first: usize, size: usize, index: i64) -> i64
    requires { first + size ≤ length cells.now }
    ensures { result ≡ element cells.now first size index }
{
    if 0 <= index && (index as u64) < size as u64 {
        cells[first + index as usize]
    } else {
        0
    }
}

/// Sets the element of the array of `size` words at `first`, where the index is in range.
pub fn set_element(cells: &mut [i64], first: usize, size: usize, index: i64, value: i64)
    requires { first + size ≤ length cells.old }
    ensures { cells.new ≡ with_element cells.old first size index value }
{
    if 0 <= index && (index as u64) < size as u64 {
        cells[first + index as usize] = value;
    }
}

/// The `size` words that stood at one place stand at another afterwards.
pub fn copy(cells: &mut [i64], from: usize, to: usize, size: usize)
    requires from { from + size ≤ length cells.old }
    requires to { to + size ≤ length cells.old }
    ensures { cells.new ≡ copied cells.old from to size }
{
    cells.copy_within(from..from + size, to);
}

/// Sets all words behind the first ones to 0.
pub fn clear(cells: &mut [i64], words: usize)
    requires { words ≤ length cells.old }
    ensures { cells.new ≡ take words cells.old ++ replicate (length cells.old - words) (pos 0) }
{
    cells[words..].fill(0);
}
