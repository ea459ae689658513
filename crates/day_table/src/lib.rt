// The month and the day of each day of a year that begins on 1 March and may end with a 29 February. The days are counted from 0; 366
// and more, which no year has, are answered with 0, and not with None, since `month_at` and `day_at` promise a number of every day.
//
//     month(k), day(k)        by a product
//     month_and_day(k)        256 * month + day, from a table that tools/make_day_table makes

#![tactic(auto)]

mod table;

ghost use Rattle.std.specs.Prelude.{◌≡◌, get_or};
ghost use Rattle.day_table.specs.Year.{month_at, day_at, month_and_day};
ghost use Rattle.day_table.specs.Table.{entries};

// The days of a leap year, and those before its January.
const DAYS: u64 = 366;

const JANUARY: u64 = 306;

// The month of a day, with a shift by 16 and with what is added to the product: place 0 of the sheet of constants. A day is 5 of 153.
const MONTH: u64 = 2141;

const MARCH: u64 = 197913;

// The month of the day k: source document 000, section 7. After 12 come 13 and 14, which are January and February.
#[tactic(auto, using(crate::proofs::Rule::month_rules))]
pub fn month(k: u64) -> u64
    ensures { result ≡ month_at k }
{
    if k >= DAYS {
        return 0;
    }
    let m = (MONTH * k + MARCH) >> 16;
    if k >= JANUARY { m - 12 } else { m }
}

// The day of the month of the day k, by what is left of the product.
#[tactic(auto, using(crate::proofs::Rule::no_day, crate::proofs::Rule::day_at_lem))]
pub fn day(k: u64) -> u64
    ensures { result ≡ day_at k }
{
    if k >= DAYS {
        return 0;
    }
    (MONTH * k + MARCH) % (1 << 16) / MONTH + 1
}

// Both, from the table. The compiler copies a function of this size into its caller only where there is one.
#[tactic(auto, using(crate::proofs::Rule::rule))]
pub fn month_and_day(k: u64) -> u16
    ensures { result ≡ month_and_day k }
{
    table::entry(k)
}

// What the table has for the day k.
#[tactic(auto, using(crate::proofs::Rule::rule, crate::proofs::Rule::small))]
fn by_product(k: u64) -> u16
    ensures { result ≡ get_or entries k 0 }
{
    (256 * month(k) + day(k)) as u16
}
