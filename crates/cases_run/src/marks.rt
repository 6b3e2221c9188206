// The pattern that what is lent holds before a case, and the look afterwards whether it is still there. Each place has a mark of its
// own, so that a piece of the page that was moved is seen too.
ghost use Rattle.std.specs.Prelude.{◌≡◌, ℕ, true};
ghost use Rattle.cases_run.specs.Marks.{mark_at, table_mark_at, Marked};

// What a page or a table holds, which has a mark for each place.
pub trait Mark: Copy {
    ghost mark_of: { ℕ → Self };

    fn mark(place: usize) -> Self
        ensures { result ≡ mark_of place };

    fn is_mark(self, place: usize) -> bool
        ensures { result ≡ true → self ≡ mark_of place };
}

impl Mark for u8 {
    ghost mark_of = { mark_at };

    fn mark(place: usize) -> u8 {
        (place % 251 + 5) as u8
    }

    fn is_mark(self, place: usize) -> bool {
        self == u8::mark(place)
    }
}

// Above every entry of an accepted case.
impl Mark for u32 {
    ghost mark_of = { table_mark_at };

    fn mark(place: usize) -> u32 {
        2779054080 + (place % 65536) as u32
    }

    fn is_mark(self, place: usize) -> bool {
        self == u32::mark(place)
    }
}

pub fn mark_all<T: Mark>(places: &mut [T])
    ensures { Marked T.mark_of 0 places.new }
{
    for (i, place) in places.iter_mut().enumerate() {
        *place = T::mark(i);
    }
}

// Whether everything from a place on is marked.
pub fn is_kept<T: Mark>(places: &[T], from: usize) -> bool
    ensures { result ≡ true → Marked T.mark_of from places.now }
{
    for i in from..places.len() {
        if !places[i].is_mark(i) {
            return false;
        }
    }
    true
}
