// What a line tells, as numbers.
ghost use Rattle.std.specs.Prelude.{◌≡◌};
ghost use Rattle.asc.specs.Replies.{told_numbers};

use asc_lines::Told;

// The type, seconds, nanoseconds and channel; the message's; the statistic's; zeros for what such a line does not tell.
pub fn told_numbers(t: Told) -> [u64; 24]
    ensures { result ≡ told_numbers t }
{
    let f = t.body.frame();
    let b = f.bytes;
    let c = t.body.counts();
    [
        t.body.number() as u64,
        t.head.seconds,
        t.head.nanos as u64,
        t.head.channel as u64,
        f.id as u64,
        f.extended as u64,
        f.sent as u64,
        f.remote as u64,
        f.dlc as u64,
        b[0] as u64,
        b[1] as u64,
        b[2] as u64,
        b[3] as u64,
        b[4] as u64,
        b[5] as u64,
        b[6] as u64,
        b[7] as u64,
        c.load as u64,
        c.standard_data as u64,
        c.extended_data as u64,
        c.standard_remote as u64,
        c.extended_remote as u64,
        c.errors as u64,
        c.overloads as u64,
    ]
}
