// How near a straight line and a staircase come to each other below an end, by Euclid's algorithm on the staircase's slope.
// The staircase at x is (rise*x + start) / width steps, each `height` high; the line at x is slope*x. One of the two has a lead, and
// the gap at x is what the other lacks there to be up with it, 0 where it is up.
//
// The seven numbers are parameters: as the fields of one struct they go through memory at each call, and a claim with a d of up to 16
// took 1.16 times as long so, one with a d of up to 256 1.29 times.

ghost use Rattle.constants.specs.Stairs.{line_gap, stairs_gap, LeastValue, LineSizes, StairsSizes};

// The line's least gap below `end`. It lies at the last x, or at the last x of an earlier step; over the steps, those are a
// staircase too.
#[cycle(line_gap_stairs_gap)]
pub fn line_gap(
    end: u64,
    width: u64,
    rise: u64,
    start: u64,
    slope: u64,
    height: u64,
    lead: u64,
) -> u64
    requires { LineSizes end width rise start slope height lead }
    ensures { LeastValue (line_gap width rise start slope height lead) end result }
{
    if end == 1 {
        return lead;
    }
    let whole = height * (rise / width);
    if slope <= whole {
        return lead;
    }
    let part = rise % width;
    let rest = slope - whole;
    let last = end - 1;
    let steps = (part * last + start) / width;
    let gap = (lead + height * steps).saturating_sub(rest * last);
    if steps == 0 {
        return gap;
    }
    if gap == 0 {
        return 0;
    }
    let earlier = stairs_gap(steps, part, width, width - start - 1, height, rest, lead);
    gap.min(earlier)
}

// The staircase's least gap below `end`. From the last x backwards it is the line that lacks, against another staircase.
#[cycle(line_gap_stairs_gap)]
pub fn stairs_gap(
    end: u64,
    width: u64,
    rise: u64,
    start: u64,
    slope: u64,
    height: u64,
    lead: u64,
) -> u64
    requires { StairsSizes end width rise start slope height lead }
    ensures { LeastValue (stairs_gap width rise start slope height lead) end result }
{
    let last = end - 1;
    let reach = rise * last + start;
    let gap = (lead + slope * last).saturating_sub(height * (reach / width));
    if gap == 0 {
        return 0;
    }
    line_gap(
        end,
        width,
        rise,
        width - 1 - reach % width,
        slope,
        height,
        gap,
    )
}
