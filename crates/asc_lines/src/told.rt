// What a line tells.
ghost use Rattle.std.specs.Prelude.{◌≤◌, ◌≡◌};
ghost use Rattle.asc_lines.specs.Told.{body_number, body_frame, body_counts};
ghost use Rattle.asc_lines.specs.Told.{shown as Told·shown};

// The time, as whole seconds and the nanoseconds over, and the channel: every line has them.
#[derive(Clone, Copy)]
pub struct Head {
    pub seconds: u64,
    pub nanos: u32,
    pub channel: u16,
}

// What a message's line tells.
#[derive(Clone, Copy, Default)]
pub struct Frame {
    // without bit 31, which says extended
    pub id: u32,
    pub extended: bool,
    // Tx; else Rx
    pub sent: bool,
    pub remote: bool,
    pub dlc: u8,
    // those that stand in the line, and zeros behind them
    pub bytes: [u8; 8],
}

// What a statistic's line tells, in the object's order.
#[derive(Clone, Copy, Default)]
pub struct Counts {
    // in 1/100 percent
    pub load: u16,
    pub standard_data: u32,
    pub extended_data: u32,
    pub standard_remote: u32,
    pub extended_remote: u32,
    pub errors: u32,
    pub overloads: u32,
}

// What stands behind the channel, by the type of the line's object.
#[derive(Clone, Copy)]
pub enum Body {
    Message(Frame),
    Overload,
    Statistic(Counts),
}

// What a line tells.
#[derive(Clone, Copy)]
pub struct Told {
    pub head: Head,
    pub body: Body,
}

impl Body {
    // The object's type.
    pub fn number(self) -> u32
        ensures { result ≡ body_number self }
    {
        match self {
            Body::Message(_) => 1,
            Body::Overload => 3,
            Body::Statistic(_) => 4,
        }
    }

    // The message's frame; zeros where it is none.
    pub fn frame(self) -> Frame
        ensures { result ≡ body_frame self }
    {
        match self {
            Body::Message(frame) => frame,
            _ => Frame::default(),
        }
    }

    // The statistic's counts; zeros where it is none.
    #[tactic(auto, unfolding(crate::specs::Told::no_counts))]
    pub fn counts(self) -> Counts
        ensures { result ≡ body_counts self }
    {
        match self {
            Body::Statistic(counts) => counts,
            _ => Counts::default(),
        }
    }
}

// How many bytes stand in a message's line.
#[tactic(auto, unfolding(crate::specs::Told::shown))]
pub fn shown(remote: bool, dlc: u8) -> usize
    ensures { (result ≡ Told·shown remote dlc) × (result ≤ 8) }
{
    if remote { 0 } else { usize::from(dlc).min(8) }
}
