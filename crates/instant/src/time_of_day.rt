// The time of day and its fields: document 01, "Instants and the two labels".

ghost use Rattle.std.specs.Prelude.{◌≡◌, ◌<◌};
ghost use Rattle.instant.specs.Units.{per_day};
ghost use Rattle.instant.specs.Instant.{fields_at};
ghost use Rattle.refusal.specs.Outcome.{outcome};
ghost use Rattle.instant.specs.Checked.{time_answer};

use super::units::{PER_HOUR, PER_MINUTE, PER_SECOND};
use crate::Fields;
use calendar::Date;
use refusal::Refusal;

// The fields of a date and a time of day.
#[tactic(auto, unfolding(crate::specs::Instant::fields_at))]
pub fn fields_at(date: Date, time: u64) -> Fields
    requires { time < per_day }
    ensures { result ≡ fields_at date time }
{
    Fields {
        year: date.year,
        month: date.month,
        day: date.day,
        hour: (time / PER_HOUR) as i64,
        minute: (time % PER_HOUR / PER_MINUTE) as i64,
        second: (time % PER_MINUTE / PER_SECOND) as i64,
        millisecond: (time % PER_SECOND) as i64,
    }
}

// The time of day of its fields, which are tested.
pub fn check_time(fields: Fields) -> Result<i64, Refusal>
    ensures { outcome result ≡ time_answer fields.hour fields.minute fields.second fields.millisecond }
{
    if numbers::outside(0, 23, fields.hour)
        || numbers::outside(0, 59, fields.minute)
        || numbers::outside(0, 59, fields.second)
        || numbers::outside(0, PER_SECOND as i64 - 1, fields.millisecond)
    {
        return Err(Refusal::TimeOutOfRange);
    }
    Ok(
        fields.hour * PER_HOUR as i64
            + fields.minute * PER_MINUTE as i64
            + fields.second * PER_SECOND as i64
            + fields.millisecond,
    )
}
