//! What the code of a text in one dictionary is in another one.
ghost use Rattle.std.specs.Prelude.{◌≡◌, ◌<◌, IfOk, IfSome, length};
ghost use Rattle.gq_dict.specs.Texts.{text_at};
ghost use Rattle.gq_same_texts.specs.Same.{Turns};
ghost use Rattle.gq_same_texts.specs.steps.Codes.{AreCodesIn, IsCodeIn, cell_in, code_in};

use gq_base::Memory;
use gq_dict::Dict;
use std::alloc::Global;
use std::marker::Model;

/// Two dictionaries, of which the codes of the one are asked for in the other. It is seen as both of
/// them: whether a code is looked up or was looked up before, it is the same.
#[derive(Drop)]
pub struct SameTexts<'g> {
    from: &'g Dict,
    to: &'g Dict,
    // Whether there is room for all codes, to look them up once.
    room: bool,
    // The codes of the first texts in the other dictionary, where it has them.
    codes: Vec<Option<u32>>,
}

impl<'g> Model for SameTexts<'g> {
    ghost use Rattle.gq_same_texts.specs.Same.{Dicts};
    ghost use Rattle.gq_same_texts.specs.steps.Codes.{AreCodesIn};

    ghost Value = { Dicts };

    ghost view = { λ s. record { from = s.from.now; to = s.to.now } };

    ghost invariant = { λ s. AreCodesIn s.from.now s.to.now s.codes.items };
}

impl<'g> SameTexts<'g> {
    /// Two dictionaries. Where the one has at most so many texts, the memory to look all of them up
    /// once is taken here.
    pub fn with_room(
        alloc: Global,
        from: &'g Dict,
        to: &'g Dict,
        most: usize,
    ) -> Result<SameTexts<'g>, Memory>
        ensures from { IfOk result (λ s. s.from ≡ from.now) }
        ensures to { IfOk result (λ s. s.to ≡ to.now) }
    {
        let texts = from.len() as usize;
        let room = texts <= most;
        let codes = Vec::with_capacity(alloc, if room { texts } else { 0 })?;
        Ok(SameTexts {
            from,
            to,
            room,
            codes,
        })
    }

    /// Looks all codes up, where there is room for them. It takes no memory.
    pub fn fill(&mut self)
        ensures { self.new ≡ self.old }
    {
        if self.room {
            look_up(&mut self.codes, self.from, self.to);
        }
    }

    /// The cell of the same text in the other dictionary, if that has it. It takes no memory.
    pub fn turned(&self, cell: Option<i64>) -> Option<i64>
        ensures { Turns self.now cell result }
    {
        match code_in(self.from.len(), cell) {
            None => None,
            Some(code) => cell_of(self.code(code)),
        }
    }

    // The code in the other dictionary of the text of a code, if that has it.
    fn code(&self, code: u32) -> Option<u32>
        requires { code < length self.now.from }
        ensures { IsCodeIn self.now.to (text_at self.now.from code) result }
    {
        match self.codes.get(code as usize) {
            Some(found) => *found,
            None => self.to.code(self.from.text(code)),
        }
    }
}

// Looks up the codes of one dictionary in another one, as long as there is room.
fn look_up(codes: &mut Vec<Option<u32>>, from: &Dict, to: &Dict)
    ensures { AreCodesIn from.now to.now codes.new.items }
{
    codes.clear();
    for code in 0..from.len() {
        match codes.push(to.code(from.text(code))) {
            Ok(()) => {}
            Err(_) => return,
        }
    }
}

// The code that a cell is, if it is one of the first so many.
fn code_in(count: u32, cell: Option<i64>) -> Option<u32>
    ensures value { result ≡ code_in count cell }
    ensures within { IfSome result (λ code. code < count) }
{
    let cell = cell?;
    if 0 <= cell && cell < i64::from(count) {
        Some(cell as u32)
    } else {
        None
    }
}

// The cell that a code is.
fn cell_of(code: Option<u32>) -> Option<i64>
    ensures { result ≡ cell_in code }
{
    match code {
        None => None,
        Some(code) => Some(i64::from(code)),
    }
}
