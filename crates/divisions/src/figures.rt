// The two figures of a drawing, by their closed forms; the contracts say what they count.
ghost use Rattle.std.specs.Prelude.{◌≡◌, ◌<◌, min};
ghost use Rattle.divisions.specs.Figures.{candidates, path_steps, priced_figure, compared_figure};

// How many bins a table of at most `most` bins has, for so many counted levels.
pub fn bins(counted: u16, most: u16) -> u16
    ensures { result ≡ min most counted }
{
    most.min(counted)
}

// How many runs of the counted levels are candidates for one of these bins.
pub fn priced(counted: u16, most: u16) -> u64
    ensures counts { result ≡ candidates counted (min most counted) }
    ensures formula { result ≡ priced_figure counted (min most counted) }
{
    let c = u64::from(counted);
    let b = u64::from(bins(counted, most));
    (c * c + c - b * b + b) / 2
}

// How many path steps the divisions of the counted levels into that many runs have.
pub fn compared(counted: u16, most: u16) -> u64
    ensures counts { result ≡ path_steps counted (min most counted) }
    ensures formula { 0 < min most counted → result ≡ compared_figure counted (min most counted) }
{
    let c = u64::from(counted);
    let b = u64::from(bins(counted, most));
    if b < 2 {
        return b;
    }
    let longest = c - b + 1;
    (b - 2) * longest * (longest + 1) / 2 + 2 * longest
}
