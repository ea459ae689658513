// What C is handed of an answer: a number that the call returns, or numbers in a place that the caller handed in. A count, a place or a
// least n is required to fit an i64; it does by the length of what was lent, or by the end or bound that was asked for.

ghost use Rattle.std.specs.Prelude.{ℕ, ◌<◌, ◌^◌, ◌≡◌, ℤ, pos, neg_ℤ, cond, Ok, Err, Some};
ghost use Rattle.std.specs.Result.{ForOk};
ghost use Rattle.refusal.specs.Numbers.{refusal_number};
ghost use Rattle.refusal.specs.Outcome.{outcome, map_value, after_call};
ghost use Rattle.refusal.specs.declared.Refusal.{Refusal};
ghost use Rattle.refusal.specs.declared.RefusalAt.TheVariants.{At};
ghost use Rattle.constants.specs.Answers.{search_outcome};
ghost use Rattle.player.specs.Returned.{returned, returned_found, date_numbers, week_numbers, fields_numbers, cue_numbers, length_of_note, record_numbers, clock_numbers};
ghost use Rattle.player.specs.Handed.{outcome_alone, handed_back};

use calendar::Date;
use instant::Fields;
use labels::webvtt::Cue;
use refusal::{Refusal, RefusalAt};
use sheet::{Claim, Contents};
use transport::Position;
use week::WeekDate;

// A value that a call returns as a number.
pub trait ToNumber {
    ghost number: { Self → ℤ };

    ghost fits: { Self → Type 0 } = { λ _. Unit {0} };

    fn number(self) -> i64
        requires { fits self }
        ensures { result ≡ number self };
}

impl ToNumber for i64 {
    ghost number = { λ n. n };

    fn number(self) -> i64 {
        self
    }
}

impl ToNumber for bool {
    ghost number = { λ flag. cond flag (pos 1) (pos 0) };

    fn number(self) -> i64 {
        i64::from(self)
    }
}

impl ToNumber for usize {
    ghost number = { pos };

    ghost fits = { λ n. n < 2 ^ 63 };

    fn number(self) -> i64 {
        (self as u64).number()
    }
}

impl ToNumber for u64 {
    ghost number = { pos };

    ghost fits = { λ n. n < 2 ^ 63 };

    fn number(self) -> i64 {
        self as i64
    }
}

// There is nothing to return but that the call is done.
impl ToNumber for () {
    ghost number = { λ _. pos 0 };

    fn number(self) -> i64 {
        0
    }
}

// A value whose numbers go to a place.
pub trait ToPlace {
    type Place;

    ghost numbers: { Self → Self.Place };

    ghost returns: { Self → ℤ } = { λ _. pos 0 };

    ghost fits: { Self → Type 0 } = { λ _. Unit {0} };

    // Puts them there; what the call then returns.
    fn put(self, place: &mut Self::Place) -> i64
        requires { fits self }
        ensures place { place.new ≡ numbers self }
        ensures answer { result ≡ returns self };
}

impl ToPlace for i64 {
    type Place = i64;

    ghost numbers = { λ n. n };

    fn put(self, place: &mut i64) -> i64 {
        *place = self;
        0
    }
}

impl ToPlace for Date {
    type Place = [i64; 3];

    ghost numbers = { date_numbers };

    fn put(self, place: &mut [i64; 3]) -> i64 {
        *place = [self.year, self.month, self.day];
        0
    }
}

impl ToPlace for WeekDate {
    type Place = [i64; 3];

    ghost numbers = { week_numbers };

    fn put(self, place: &mut [i64; 3]) -> i64 {
        *place = [self.year, self.week, self.weekday];
        0
    }
}

impl ToPlace for Fields {
    type Place = [i64; 7];

    ghost numbers = { fields_numbers };

    fn put(self, place: &mut [i64; 7]) -> i64 {
        *place = [
            self.year,
            self.month,
            self.day,
            self.hour,
            self.minute,
            self.second,
            self.millisecond,
        ];
        0
    }
}

impl ToPlace for Cue {
    type Place = [i64; 2];

    ghost numbers = { cue_numbers };

    fn put(self, place: &mut [i64; 2]) -> i64 {
        *place = [self.start, self.end];
        0
    }
}

impl ToPlace for Claim {
    type Place = [i64; 8];

    ghost numbers = { record_numbers };

    fn put(self, place: &mut [i64; 8]) -> i64 {
        *place = [
            i64::from(self.a),
            i64::from(self.b),
            i64::from(self.d),
            i64::from(self.m),
            i64::from(self.c),
            i64::from(self.k),
            i64::from(self.t),
            i64::from(self.bound),
        ];
        0
    }
}

// The length of the note goes to the place, and the number of records is returned.
impl ToPlace for Contents {
    type Place = i64;

    ghost numbers = { length_of_note };

    ghost returns = { λ contents. pos contents.records };

    ghost fits = { λ contents. (contents.records < 2 ^ 63) × (contents.offset < 2 ^ 63) };

    fn put(self, place: &mut i64) -> i64 {
        *place = self.offset as i64;
        self.records as i64
    }
}

// The clock at the position goes to the place, and the position's milliseconds are returned.
impl ToPlace for Position {
    type Place = [i64; 2];

    ghost numbers = { λ position. clock_numbers position.ticks };

    ghost returns = { λ position. position.milliseconds };

    fn put(self, place: &mut [i64; 2]) -> i64 {
        *place = [1, self.ticks];
        self.milliseconds
    }
}

// The value, or the refusal's number negated.
pub fn returned<T: ToNumber>(answer: Result<T, Refusal>) -> i64
    requires { ForOk answer T.fits }
    ensures { result ≡ returned (map_value T.number (outcome answer)) }
{
    match answer {
        Ok(value) => value.number(),
        Err(refusal) => negated(refusal),
    }
}

// The value goes to the place; where the call is refused the place stays as it was.
pub fn placed<T: ToPlace>(answer: Result<T, Refusal>, place: &mut T::Place) -> i64
    requires { ForOk answer T.fits }
    ensures answer { result ≡ returned (map_value T.returns (outcome answer)) }
    ensures place { place.new ≡ after_call (outcome answer) T.numbers place.old }
{
    match answer {
        Ok(value) => value.put(place),
        Err(refusal) => negated(refusal),
    }
}

// The value, or the refusal's number negated; what a refusal hands back goes to the place.
pub fn returned_at<T: ToNumber, N: ToNumber>(
    answer: Result<T, RefusalAt<N>>,
    place: &mut i64,
) -> i64
    requires value_fits { ForOk answer T.fits }
    requires place_fits { (why : Refusal) (n : N) → answer ≡ Err (At why n) → N.fits n }
    ensures answer { result ≡ returned (map_value T.number (outcome_alone answer)) }
    ensures place { place.new ≡ handed_back N.number answer place.old }
{
    match answer {
        Ok(done) => done.number(),
        Err(RefusalAt::Alone(refusal)) => negated(refusal),
        Err(RefusalAt::At(refusal, n)) => {
            *place = n.number();
            negated(refusal)
        }
    }
}

// The number that was found, or the end of the search where there is none below it, or the refusal's number negated.
pub fn returned_found(answer: Result<Option<u64>, Refusal>, end: i64) -> i64
    requires { (n : ℕ) → answer ≡ Ok (Some n) → n < 2 ^ 63 }
    ensures { result ≡ returned_found end (search_outcome answer) }
{
    match answer {
        Ok(Some(n)) => n.number(),
        Ok(None) => end,
        Err(refusal) => negated(refusal),
    }
}

// A refusal's number, below zero.
fn negated(refusal: Refusal) -> i64
    ensures { result ≡ neg_ℤ (pos (refusal_number refusal)) }
{
    0 - (refusal.number() as i64)
}
