// A concept as the bytes of a question, and the concept of the last of some rows as such bytes. All of it is done without a call of itself: rows
// that are still to be written wait in an array. Each takes at least a byte, so that where more wait than a text can have, the text is too long.
use std::array;

// How many bytes a concept in a question has at most.
const LONGEST: usize = 255;

// The numbers of a row.
const ROW: usize = 3;

// The bytes of a concept, while it is written and then.
#[derive(Clone, Copy)]
pub(crate) struct Text {
    bytes: [u8; LONGEST],
    length: usize,
}

// Rows that wait to be written, the next one last.
#[derive(Clone, Copy)]
struct Waiting {
    rows: [usize; LONGEST],
    count: usize,
}

impl Text {
    const EMPTY: Text = Text {
        bytes: [0; LONGEST],
        length: 0,
    };

    // A name, which takes so many bytes.
    pub(crate) fn of_name(name: usize, width: usize) -> Option<Text> {
        let mut text = Text::EMPTY;
        text.put(1)?;
        text.put_name(name, width)?;
        Some(text)
    }

    // The concept of the last row; none where it has more bytes than a question can have, or there is no row.
    pub(crate) fn of_rows(rows: &[u32], width: usize) -> Option<Text> {
        let mut text = Text::EMPTY;
        let mut waiting = Waiting::NONE;
        waiting.push((rows.len() / ROW).checked_sub(1)?)?;
        for _ in 0..=LONGEST {
            let Some(row) = waiting.pop() else {
                return Some(text);
            };
            put_row(
                &mut text,
                &mut waiting,
                rows.chunks_exact(ROW).nth(row)?,
                width,
            )?;
        }
        None
    }

    pub(crate) fn bytes(&self) -> &[u8] {
        self.bytes.get(..self.length).unwrap_or(&[])
    }

    fn put(&mut self, byte: u8) -> Option<()> {
        let place = self.bytes.get_mut(self.length)?;
        *place = byte;
        self.length += 1;
        Some(())
    }

    // Low byte first.
    fn put_name(&mut self, name: usize, width: usize) -> Option<()> {
        for byte in name.to_le_bytes().iter().take(width) {
            self.put(*byte)?;
        }
        Some(())
    }
}

impl Waiting {
    const NONE: Waiting = Waiting {
        rows: [0; LONGEST],
        count: 0,
    };

    fn push(&mut self, row: usize) -> Option<()> {
        let place = self.rows.get_mut(self.count)?;
        *place = row;
        self.count += 1;
        Some(())
    }

    fn pop(&mut self) -> Option<usize> {
        self.count = self.count.checked_sub(1)?;
        self.rows.get(self.count).copied()
    }
}

// Puts what a row itself says, and lets the rows that it is made of wait. None where there is no room, or the row is of no kind.
fn put_row(text: &mut Text, waiting: &mut Waiting, row: &[u32], width: usize) -> Option<()> {
    let [kind, one, other]: [u32; ROW] = array::from_fn(|place| {
        row.get(place).copied().unwrap_or(0)
    });
    text.put(u8::try_from(kind).ok()?)?;
    match kind {
        0 => Some(()),
        1 => text.put_name(one as usize, width),
        2 => {
            waiting.push(other as usize)?;
            waiting.push(one as usize)
        }
        3 => {
            text.put(u8::try_from(one).ok()?)?;
            waiting.push(other as usize)
        }
        _ => None,
    }
}
