// Marks as the bits of a number, and the search in circular order.
ghost use Rattle.std.specs.Prelude.{◌≡◌, ◌≤◌, ◌<◌, ◌^◌};
ghost use Rattle.turns.specs.Marks.{readers, all_marked, marked, with_mark, without_mark};
ghost use Rattle.turns.specs.Order.{next_after, served};

// The readers, the last of them, and all of their marks.
pub const READERS: usize = 16;

pub const LAST: usize = 15;

pub const ALL_MARKED: usize = 65535;

// Is the reader marked?
pub fn is_marked(marks: usize, reader: usize) -> bool
    requires { reader < readers }
    ensures { result ≡ marked marks reader }
{
    (marks >> reader) % 2 == 1
}

// A reader's mark alone.
fn bit(reader: usize) -> usize
    requires { reader < readers }
    ensures { (result ≡ 2 ^ reader) × (result ≤ 32768) }
{
    1 << reader
}

// The marks with its mark,
pub fn with_mark(marks: usize, reader: usize) -> usize
    requires { (reader < readers) × (marks ≤ all_marked) }
    ensures { result ≡ with_mark marks reader }
{
    if is_marked(marks, reader) {
        return marks;
    }
    marks + bit(reader)
}

// and without.
pub fn without_mark(marks: usize, reader: usize) -> usize
    requires { (reader < readers) × (marks ≤ all_marked) }
    ensures { result ≡ without_mark marks reader }
{
    if is_marked(marks, reader) {
        return marks - bit(reader);
    }
    marks
}

// The first marked reader of the sixteen after `last`, which comes last itself.
pub fn first_marked(marks: usize, last: usize) -> Option<usize>
    requires { last < readers }
    ensures { served result ≡ next_after (marked marks) last }
{
    for i in 0..READERS {
        let reader = (last + 1 + i) % READERS;
        if is_marked(marks, reader) {
            return Some(reader);
        }
    }
    None
}
