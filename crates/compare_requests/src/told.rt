// W-201, question 3: a text read as a line. The reply stands on a sheet of 232 bytes, what the line tells behind it.
use crate::stream::put_all;

// Answers a text; none where the reply was not written.
pub fn tell_text<P: Print>(output: &P, text: &[u8]) -> Option<()> {
    let (reply, numbers) = match asc::read_line(text) {
        Ok(told) => ([6, 0, 0, 0, 0], asc::told_numbers(told)),
        Err(refusal) => (
            [3, refusal.number() as u64, refusal.place() as u64, 0, 0],
            [0; 24],
        ),
    };
    let mut sheet = [0u8; 232];
    put_all(&mut sheet, 0, &reply);
    put_all(&mut sheet, 40, &numbers);
    output.write_all(&sheet).ok()
}
