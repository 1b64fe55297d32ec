ghost use Rattle.std.specs.Prelude.{◌≡◌};
ghost use Rattle.audit_serve_door.specs.Choice.{next_entry, next_other, next_reader, earlier};

/// How many places are held by clients that only read, and how many by others.
#[derive(Clone, Copy, Debug)]
pub struct Taken {
    /// Clients that only read.
    pub readers: usize,
    /// All others.
    pub others: usize,
    /// How many places each of the two may hold.
    pub most: usize,
}

/// The connections that come next, by the numbers in whose order they were accepted.
#[derive(Clone, Copy, Debug)]
pub struct Heads {
    /// The first of those that wait, have sent something and only read.
    pub reader: Option<usize>,
    /// The first of all others that wait and have sent something.
    pub other: Option<usize>,
    /// The first of these others that has hung up and hasn't left, whether it waits or has a place.
    pub closing: Option<usize>,
    /// Whether that one waits.
    pub closing_waits: bool,
}

/// The number of the connection that gets a vacant place, if one does. Places go in the order of acceptance, with two
/// exceptions. Neither clients that only read nor all others may hold more than `most`; but one of the others that has
/// hung up, and only has to be read to its end, may take a further one. And nobody gets a place before an earlier client
/// that has hung up has left, if that one may append: what it had sent comes first.
pub fn next_entry(heads: Heads, taken: Taken) -> Option<usize>
    ensures { result ≡ next_entry heads taken }
{
    earlier(next_reader(heads, taken), next_other(heads, taken))
}

// Not later than the number, if there is one.
fn is_first(number: usize, bound: Option<usize>) -> bool
    ensures { result ≡ Rattle.audit_serve_door.specs.Choice.is_first number bound }
{
    match bound {
        Some(bound) => number <= bound,
        None => true,
    }
}

fn next_reader(heads: Heads, taken: Taken) -> Option<usize>
    ensures { result ≡ next_reader heads taken }
{
    match heads.reader {
        Some(number) if taken.readers < taken.most && is_first(number, heads.closing) => {
            Some(number)
        }
        _ => None,
    }
}

fn next_other(heads: Heads, taken: Taken) -> Option<usize>
    ensures { result ≡ next_other heads taken }
{
    if taken.others >= taken.most {
        return if heads.closing_waits {
            heads.closing
        } else {
            None
        };
    }
    match heads.other {
        Some(number) if is_first(number, heads.closing) => Some(number),
        _ => None,
    }
}

fn earlier(first: Option<usize>, second: Option<usize>) -> Option<usize>
    ensures { result ≡ earlier first second }
{
    match (first, second) {
        (Some(one), Some(other)) if one <= other => Some(one),
        (Some(one), None) => Some(one),
        (_, other) => other,
    }
}
