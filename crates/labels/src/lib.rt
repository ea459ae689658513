// The two labels of document 01, "Instants and the two labels": RFC 3339 for instants, WebVTT for positions; WebVTT timestamps and cue
// lines read back, document 02, request One; and ISO 8601 week labels, request Seven.
//
//     rfc3339::write_instant(instant, out)       bytes written       refusals 4, then 1, then 7
//     rfc3339::read_instant(label)               instant             refusals 8, then 2, 3, 5
//     iso_week::write_week(days, out)            bytes written       refusals 4, then 1, then 7
//     iso_week::read_week(label)                 day count           refusals 8, then 16
//     webvtt::write_position(position, out)      bytes written       refusals 6, then 7
//     webvtt::read_position(text)                position            refusals 13, then 6
//     webvtt::read_cue(line)                     start and end       refusals 13, then 6, then 13
//
// `rfc3339::LENGTH` is the number of bytes of an instant's label, `iso_week::LENGTH` that of a week's.

#![tactic(auto)]

mod buffer;
mod clock;
mod cue;
mod date;
mod digits;
pub mod iso_week;
mod long_position;
pub mod rfc3339;
mod short_position;
mod time_fields;
mod timestamp;
mod two_digits;
pub mod webvtt;
mod years;
