// Refusals 1 to 5: what can be said before a slot is read.
ghost use Rattle.std.specs.Prelude.{◌≡◌};
ghost use Rattle.jit.specs.Translation.{short_table};
ghost use Rattle.jit_judging.specs.Lent.{twice, rising, Sizes};

use jit::Refusal;

// Is each id above the one before it?
fn is_rising(ids: &[u32]) -> bool
    ensures { result ≡ rising ids }
{
    ids.is_sorted_by(|id, next| id < next)
}

// Pair by pair, 256 ids cost far more than the rest of a short filter's translation. In rising order none stands twice, and one pass tells, so
// that is asked first.
fn is_twice(ids: &[u32]) -> bool
    ensures { result ≡ twice ids }
{
    if is_rising(ids) {
        return false;
    }
    for (k, id) in ids.iter().enumerate() {
        if ids[k + 1..].contains(id) {
            return true;
        }
    }
    false
}

// Has a table fewer entries than n slots, and one?
fn is_short(
    n: usize,
    locations: usize,
    fields: usize,
    targets: usize,
    kinds: usize,
    makers: usize,
) -> bool
    ensures { result ≡ short_table n locations fields targets kinds makers }
{
    locations <= n || fields <= n || targets <= n || kinds <= n || makers <= n
}

// The lengths are those of the program, the page, the tables and the address list.
pub fn sizes(
    prog: usize,
    page: usize,
    locations: usize,
    fields: usize,
    targets: usize,
    kinds: usize,
    makers: usize,
    ids: &[u32],
    addresses: usize,
) -> Result<(), Refusal>
    ensures { Sizes prog page locations fields targets kinds makers ids addresses result }
{
    if page < jit::SHORTEST_PAGE {
        return Err(Refusal::PageTooShort);
    }
    if jit::LONGEST_PAGE < page {
        return Err(Refusal::PageTooLong);
    }
    if jit::LONGEST_PROGRAM < prog {
        return Err(Refusal::ProgramTooLong);
    }
    if is_short(prog / 8, locations, fields, targets, kinds, makers) {
        return Err(Refusal::TableTooShort);
    }
    if ids.len() != addresses {
        return Err(Refusal::BadHelpers);
    }
    if jit::MOST_HELPERS < ids.len() {
        return Err(Refusal::BadHelpers);
    }
    if is_twice(ids) {
        return Err(Refusal::BadHelpers);
    }
    Ok(())
}
