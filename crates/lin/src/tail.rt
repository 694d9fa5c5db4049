// How a LIN message ends: in one of three ways.
ghost use Rattle.std.specs.Prelude.{◌≡◌, true, ◌+◌, ◌≤◌, length, drop};
ghost use Rattle.std.specs.Float.{binary64};
ghost use Rattle.std.specs.Float.Ieee.{of_bits};
ghost use Rattle.fields.specs.Written.{Wrote};
ghost use Rattle.lin.specs.Tail.{rates, tail};
ghost use Rattle.lin.specs.Fields.{tail_of, rate_ok, tail_ok};

// Nothing; the response's baud rate; or that, the header's exact baud rate and the two stop-bit offsets.
#[derive(Clone, Copy)]
pub enum Tail {
    Nothing,
    Response(u32),
    Rates {
        response: u32,
        exact: f64,
        header_stop: u32,
        response_stop: u32,
    },
}

// The bytes that a tail takes.
pub(crate) fn tail_length(t: Tail) -> usize
    ensures { result ≡ length (tail t) }
{
    match t {
        Tail::Nothing => 0,
        Tail::Response(_) => 4,
        Tail::Rates { .. } => 20,
    }
}

// Whether a rate is finite with its sign bit clear: it is no NaN, and its bits are below infinity's.
fn rate_ok(exact: f64) -> bool
    ensures { result ≡ rate_ok exact }
{
    if exact != exact {
        return false;
    }
    f64::to_bits(exact) < 0x7ff0_0000_0000_0000
}

// Whether a tail may be written: its exact rate, where it has one, is finite with its sign bit clear.
pub(crate) fn tail_ok(t: Tail) -> bool
    ensures { result ≡ tail_ok t }
{
    match t {
        Tail::Rates { exact, .. } => rate_ok(exact),
        _ => true,
    }
}

// The rate of a bit pattern; a NaN's pattern may be there too, until the rate is tested.
fn rate_of(bits: u64) -> f64
    ensures { result ≡ of_bits binary64 bits }
{
    if bits % 0x8000_0000_0000_0000 > 0x7ff0_0000_0000_0000 {
        return 0.0 / 0.0;
    }
    f64::from_bits(bits)
}

// The tail that bytes are: their number decides which.
fn tail_of(t: &[u8]) -> Tail
    ensures { result ≡ tail_of t.now }
{
    if t.len() == 4 {
        return Tail::Response(fields::get32(t, 0));
    }
    if t.len() == 20 {
        return Tail::Rates {
            response: fields::get32(t, 0),
            exact: rate_of(fields::get64(t, 4)),
            header_stop: fields::get32(t, 12),
            response_stop: fields::get32(t, 16),
        };
    }
    Tail::Nothing
}

// The tail of a message's body.
pub(crate) fn get_tail(b: &[u8]) -> Tail
    requires { 132 ≤ length b.now }
    ensures { result ≡ tail_of (drop 132 b.now) }
{
    tail_of(&b[132..])
}

fn put_rates(
    out: &mut [u8],
    at: usize,
    response: u32,
    exact: f64,
    header_stop: u32,
    response_stop: u32,
)
    requires { (at + 20 ≤ length out.old) × (rate_ok exact ≡ true) }
    ensures { Wrote at (rates response exact header_stop response_stop) out.old out.new }
{
    fields::put32(out, at, response);
    fields::put64(out, at + 4, f64::to_bits(exact));
    fields::put32(out, at + 12, header_stop);
    fields::put32(out, at + 16, response_stop);
}

pub(crate) fn put_tail(out: &mut [u8], at: usize, t: Tail)
    requires { (at + length (tail t) ≤ length out.old) × (tail_ok t ≡ true) }
    ensures { Wrote at (tail t) out.old out.new }
{
    match t {
        Tail::Nothing => {}
        Tail::Response(response) => {
            fields::put32(out, at, response);
        }
        Tail::Rates {
            response,
            exact,
            header_stop,
            response_stop,
        } => {
            put_rates(out, at, response, exact, header_stop, response_stop);
        }
    }
}
