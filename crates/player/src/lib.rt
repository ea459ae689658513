// The C interface: include/ovenquill.h declares these calls, and says of each what it is for C. Each returns its value, or the
// refusal number negated; a value that may be below zero, or is more than one number, goes to a place, and the call then returns 0 or,
// of a sheet, the number of its records.
//
//     ovenquill_days_from_civil(year, month, day, days)                       0, and the day count
//     ovenquill_civil_from_days(days, date)                                   0, and year, month, day
//     ovenquill_civil_from_days_plain(days, date)                             the same, by divisions
//     ovenquill_civil_from_days_audit(days, date)                             the same, by a table of years
//     ovenquill_weekday(days)                                                 1 Monday to 7 Sunday
//     ovenquill_is_leap(year)                                                 1 leap, 0 not
//     ovenquill_last_day_of_month(year, month)                                the month's length
//     ovenquill_day_of_year(year, month, day)                                 1 to 366
//     ovenquill_add_days(year, month, day, days, date)                        0, and year, month, day
//     ovenquill_week_from_days(days, week)                                    0, and week year, week, weekday
//     ovenquill_days_from_week(year, week, weekday, days)                     0, and the day count
//     ovenquill_day_of_instant(instant, days)                                 0, and the day count
//     ovenquill_split_instant(instant, fields)                                0, and year to millisecond
//     ovenquill_join_instant(year, .., millisecond, instant)                  0, and the instant
//     ovenquill_index_days(instants, days, place)                             the days written; a refusal 4 or 15 puts the place in `place`
//     ovenquill_write_instant(instant, out)                                   the bytes written
//     ovenquill_read_instant(label, instant)                                  0, and the instant
//     ovenquill_write_week(days, out)                                         the bytes written
//     ovenquill_read_week(label, days)                                        0, and the day count
//     ovenquill_write_position(position, out)                                 the bytes written
//     ovenquill_read_position(text)                                           the position
//     ovenquill_read_cue(line, cue)                                           0, and start and end
//     ovenquill_first_difference(a, b, d, m, c, k, t, end)                    the least n, or `end`
//     ovenquill_check_bound(a, b, d, m, c, k, t, bound, least)                0 accepted; a refusal 10 puts the least n in `least`
//     ovenquill_sheet_read(sheet, note_length)                                the number of records, and the note's length
//     ovenquill_sheet_record(sheet, place, record)                            0, and the eight numbers
//     ovenquill_sheet_check(sheet, place, least)                              0 accepted; a refusal 10 puts the least n in `least`
//     ovenquill_sheet_write(note, numbers, out)                               the bytes written
//     ovenquill_sheet_report(sheet, out)                                      the bytes written
//     ovenquill_follow(clock, value)                                          the milliseconds, and the clock goes on from there
//     ovenquill_follow_all(clock, values)                                     how many were passed over, and the clock after them

#![tactic(auto)]

ghost use Rattle.std.specs.Prelude.{◌≡◌, pos};
ghost use Rattle.refusal.specs.Outcome.{value, after_call};
ghost use Rattle.calendar.specs.Answers.{days_answer, civil_answer, weekday_answer, leap_answer, last_day_answer, day_of_year_answer, add_days_answer};
ghost use Rattle.instant.specs.Answers.{day_answer, split_answer, join_answer, index_days_answer, index_days};
ghost use Rattle.week.specs.Answers.{week_answer, week_days_answer};
ghost use Rattle.refusal.specs.Written.{bytes_written, written_buffer};
ghost use Rattle.labels.specs.Rfc3339.{instant_label, read_answer};
ghost use Rattle.labels.specs.IsoWeek.{week_label, read_week_answer};
ghost use Rattle.labels.specs.Webvtt.{position_label};
ghost use Rattle.labels.specs.Timestamps.{position_answer};
ghost use Rattle.labels.specs.Cues.{cue_line_answer};
ghost use Rattle.constants.specs.Answers.{difference_answer, bound_answer};
ghost use Rattle.sheet.specs.Answers as answers;
ghost use Rattle.sheet.specs.Report.{report_text};
ghost use Rattle.transport.specs.Answers.{follow_answer, follow_all_answer};
ghost use Rattle.player.specs.Returned.{returned, returned_count, returned_flag, returned_done, returned_found, returned_milliseconds, returned_records, date_numbers, week_numbers, fields_numbers, cue_numbers, length_of_note, record_numbers, clock_of, clock_after_value, clock_after_values, after_refusal};

mod clocks;
mod give;

use calendar::Date;
use constants::Constants;
use instant::Fields;
use week::WeekDate;

#[unsafe(no_mangle)]
pub extern "C" fn ovenquill_days_from_civil(year: i64, month: i64, day: i64, days: &mut i64) -> i64
    ensures answer { result ≡ returned_done (days_answer year month day) }
    ensures days { days.new ≡ after_call (days_answer year month day) (λ n. n) days.old }
{
    give::placed(calendar::days_from_civil(Date { year, month, day }), days)
}

#[unsafe(no_mangle)]
pub extern "C" fn ovenquill_civil_from_days(days: i64, date: &mut [i64; 3]) -> i64
    ensures answer { result ≡ returned_done (civil_answer days) }
    ensures date { date.new ≡ after_call (civil_answer days) date_numbers date.old }
{
    give::placed(calendar::month_table::civil_from_days(days), date)
}

#[unsafe(no_mangle)]
pub extern "C" fn ovenquill_civil_from_days_plain(days: i64, date: &mut [i64; 3]) -> i64
    ensures answer { result ≡ returned_done (civil_answer days) }
    ensures date { date.new ≡ after_call (civil_answer days) date_numbers date.old }
{
    give::placed(calendar::plain::civil_from_days(days), date)
}

#[unsafe(no_mangle)]
pub extern "C" fn ovenquill_civil_from_days_audit(days: i64, date: &mut [i64; 3]) -> i64
    ensures answer { result ≡ returned_done (civil_answer days) }
    ensures date { date.new ≡ after_call (civil_answer days) date_numbers date.old }
{
    give::placed(calendar::audit::civil_from_days(days), date)
}

#[unsafe(no_mangle)]
pub extern "C" fn ovenquill_weekday(days: i64) -> i64
    ensures { result ≡ returned (weekday_answer days) }
{
    give::returned(calendar::weekday_from_days(days))
}

#[unsafe(no_mangle)]
pub extern "C" fn ovenquill_is_leap(year: i64) -> i64
    ensures { result ≡ returned_flag (leap_answer year) }
{
    give::returned(calendar::is_leap(year))
}

#[unsafe(no_mangle)]
pub extern "C" fn ovenquill_last_day_of_month(year: i64, month: i64) -> i64
    ensures { result ≡ returned (last_day_answer year month) }
{
    give::returned(calendar::last_day_of_month(year, month))
}

#[unsafe(no_mangle)]
pub extern "C" fn ovenquill_day_of_year(year: i64, month: i64, day: i64) -> i64
    ensures { result ≡ returned (day_of_year_answer year month day) }
{
    give::returned(calendar::day_of_year(Date { year, month, day }))
}

#[unsafe(no_mangle)]
pub extern "C" fn ovenquill_add_days(
    year: i64,
    month: i64,
    day: i64,
    days: i64,
    date: &mut [i64; 3],
) -> i64
    ensures answer { result ≡ returned_done (add_days_answer year month day days) }
    ensures date { date.new ≡ after_call (add_days_answer year month day days) date_numbers date.old }
{
    give::placed(calendar::add_days(Date { year, month, day }, days), date)
}

#[unsafe(no_mangle)]
pub extern "C" fn ovenquill_week_from_days(days: i64, week: &mut [i64; 3]) -> i64
    ensures answer { result ≡ returned_done (week_answer days) }
    ensures week { week.new ≡ after_call (week_answer days) week_numbers week.old }
{
    give::placed(week::week_from_days(days), week)
}

#[unsafe(no_mangle)]
pub extern "C" fn ovenquill_days_from_week(
    year: i64,
    week: i64,
    weekday: i64,
    days: &mut i64,
) -> i64
    ensures answer { result ≡ returned_done (week_days_answer year week weekday) }
    ensures days { days.new ≡ after_call (week_days_answer year week weekday) (λ n. n) days.old }
{
    let date = WeekDate {
        year,
        week,
        weekday,
    };
    give::placed(week::days_from_week(date), days)
}

#[unsafe(no_mangle)]
pub extern "C" fn ovenquill_day_of_instant(instant: i64, days: &mut i64) -> i64
    ensures answer { result ≡ returned_done (day_answer instant) }
    ensures days { days.new ≡ after_call (day_answer instant) (λ n. n) days.old }
{
    give::placed(instant::day_of_instant(instant), days)
}

#[unsafe(no_mangle)]
pub extern "C" fn ovenquill_split_instant(instant: i64, fields: &mut [i64; 7]) -> i64
    ensures answer { result ≡ returned_done (split_answer instant) }
    ensures fields { fields.new ≡ after_call (split_answer instant) fields_numbers fields.old }
{
    give::placed(instant::split_instant(instant), fields)
}

#[unsafe(no_mangle)]
pub extern "C" fn ovenquill_join_instant(
    year: i64,
    month: i64,
    day: i64,
    hour: i64,
    minute: i64,
    second: i64,
    millisecond: i64,
    instant: &mut i64,
) -> i64
    ensures answer { result ≡ returned_done (join_answer year month day hour minute second millisecond) }
    ensures instant { instant.new ≡ after_call (join_answer year month day hour minute second millisecond) (λ n. n) instant.old }
{
    let fields = Fields {
        year,
        month,
        day,
        hour,
        minute,
        second,
        millisecond,
    };
    give::placed(instant::join_instant(fields), instant)
}

#[unsafe(no_mangle)]
pub extern "C" fn ovenquill_index_days(instants: &[i64], days: &mut [i32], place: &mut i64) -> i64
    ensures answer { result ≡ returned_count (index_days_answer instants.now days.old) }
    ensures days { days.new ≡ index_days instants.now days.old }
    ensures place { place.new ≡ after_refusal (index_days_answer instants.now days.old) place.old }
{
    give::returned_at(instant::index_days(instants, days), place)
}

#[unsafe(no_mangle)]
pub extern "C" fn ovenquill_write_instant(instant: i64, out: &mut [u8]) -> i64
    ensures answer { result ≡ returned_count (bytes_written (instant_label instant) out.old) }
    ensures buffer { out.new ≡ written_buffer (instant_label instant) out.old }
{
    give::returned(labels::rfc3339::write_instant(instant, out))
}

#[unsafe(no_mangle)]
pub extern "C" fn ovenquill_read_instant(label: &[u8], instant: &mut i64) -> i64
    ensures answer { result ≡ returned_done (read_answer label.now) }
    ensures instant { instant.new ≡ after_call (read_answer label.now) (λ n. n) instant.old }
{
    give::placed(labels::rfc3339::read_instant(label), instant)
}

#[unsafe(no_mangle)]
pub extern "C" fn ovenquill_write_week(days: i64, out: &mut [u8]) -> i64
    ensures answer { result ≡ returned_count (bytes_written (week_label days) out.old) }
    ensures buffer { out.new ≡ written_buffer (week_label days) out.old }
{
    give::returned(labels::iso_week::write_week(days, out))
}

#[unsafe(no_mangle)]
pub extern "C" fn ovenquill_read_week(label: &[u8], days: &mut i64) -> i64
    ensures answer { result ≡ returned_done (read_week_answer label.now) }
    ensures days { days.new ≡ after_call (read_week_answer label.now) (λ n. n) days.old }
{
    give::placed(labels::iso_week::read_week(label), days)
}

#[unsafe(no_mangle)]
pub extern "C" fn ovenquill_write_position(position: i64, out: &mut [u8]) -> i64
    ensures answer { result ≡ returned_count (bytes_written (position_label position) out.old) }
    ensures buffer { out.new ≡ written_buffer (position_label position) out.old }
{
    give::returned(labels::webvtt::write_position(position, out))
}

#[unsafe(no_mangle)]
pub extern "C" fn ovenquill_read_position(text: &[u8]) -> i64
    ensures { result ≡ returned (position_answer text.now) }
{
    give::returned(labels::webvtt::read_position(text))
}

#[unsafe(no_mangle)]
pub extern "C" fn ovenquill_read_cue(line: &[u8], cue: &mut [i64; 2]) -> i64
    ensures answer { result ≡ returned_done (cue_line_answer line.now) }
    ensures cue { cue.new ≡ after_call (cue_line_answer line.now) cue_numbers cue.old }
{
    give::placed(labels::webvtt::read_cue(line), cue)
}

#[unsafe(no_mangle)]
pub extern "C" fn ovenquill_first_difference(
    a: i64,
    b: i64,
    d: i64,
    m: i64,
    c: i64,
    k: i64,
    t: i64,
    end: i64,
) -> i64
    ensures { result ≡ returned_found end (difference_answer a b d m c k t end) }
{
    let constants = Constants {
        a,
        b,
        d,
        m,
        c,
        k,
        t,
    };
    give::returned_found(constants::first_difference(constants, end), end)
}

#[unsafe(no_mangle)]
pub extern "C" fn ovenquill_check_bound(
    a: i64,
    b: i64,
    d: i64,
    m: i64,
    c: i64,
    k: i64,
    t: i64,
    bound: i64,
    least: &mut i64,
) -> i64
    ensures answer { result ≡ returned_done (bound_answer a b d m c k t bound) }
    ensures least { least.new ≡ after_refusal (bound_answer a b d m c k t bound) least.old }
{
    let constants = Constants {
        a,
        b,
        d,
        m,
        c,
        k,
        t,
    };
    give::returned_at(constants::check_bound(constants, bound), least)
}

#[tactic(auto, using(crate::proofs::Fitting::contents_fit))]
#[unsafe(no_mangle)]
pub extern "C" fn ovenquill_sheet_read(sheet: &[u8], note_length: &mut i64) -> i64
    ensures answer { result ≡ returned_records (answers.read_answer sheet.now) }
    ensures place { note_length.new ≡ after_call (answers.read_answer sheet.now) length_of_note note_length.old }
{
    give::placed(sheet::read(sheet), note_length)
}

#[unsafe(no_mangle)]
pub extern "C" fn ovenquill_sheet_record(sheet: &[u8], place: i64, record: &mut [i64; 8]) -> i64
    ensures answer { result ≡ returned_done (answers.record_answer sheet.now place) }
    ensures numbers { «record».new ≡ after_call (answers.record_answer sheet.now place) record_numbers «record».old }
{
    give::placed(sheet::record(sheet, place), record)
}

#[tactic(auto, using(crate::proofs::Fitting::check_fits))]
#[unsafe(no_mangle)]
pub extern "C" fn ovenquill_sheet_check(sheet: &[u8], place: i64, least: &mut i64) -> i64
    ensures answer { result ≡ returned_done (answers.check_answer sheet.now place) }
    ensures least { least.new ≡ after_refusal (answers.check_answer sheet.now place) least.old }
{
    give::returned_at(sheet::check_record(sheet, place), least)
}

#[unsafe(no_mangle)]
pub extern "C" fn ovenquill_sheet_write(note: &[u8], numbers: &[u32], out: &mut [u8]) -> i64
    ensures answer { result ≡ returned_count (bytes_written (answers.sheet_text note.now numbers.now) out.old) }
    ensures buffer { out.new ≡ written_buffer (answers.sheet_text note.now numbers.now) out.old }
{
    give::returned(sheet::write(note, numbers, out))
}

#[unsafe(no_mangle)]
pub extern "C" fn ovenquill_sheet_report(sheet: &[u8], out: &mut [u8]) -> i64
    ensures answer { result ≡ returned_count (bytes_written (value (report_text sheet.now)) out.old) }
    ensures buffer { out.new ≡ written_buffer (value (report_text sheet.now)) out.old }
{
    give::returned(sheet::report(sheet, out))
}

#[tactic(auto, unfolding(crate::specs::Returned::clock_after_value))]
#[unsafe(no_mangle)]
pub extern "C" fn ovenquill_follow(clock: &mut [i64; 2], value: i64) -> i64
    ensures answer { result ≡ returned_milliseconds (follow_answer (clock_of clock.old) value) }
    ensures clock { clock.new ≡ clock_after_value clock.old value }
{
    let followed = transport::follow(clocks::from_numbers(clock), value);
    give::placed(followed.answer, clock)
}

#[tactic(auto, using(transport::proofs::Laws::skipped_at_most, crate::proofs::ClockPlace::batch_place))]
#[unsafe(no_mangle)]
pub extern "C" fn ovenquill_follow_all(clock: &mut [i64; 2], values: &[i64]) -> i64
    ensures answer { result ≡ pos (follow_all_answer (clock_of clock.old) values.now).skipped }
    ensures clock { clock.new ≡ clock_after_values clock.old values.now }
{
    let batch = transport::follow_all(clocks::from_numbers(clock), values);
    clocks::followed_all(batch, values.len(), clock)
}
