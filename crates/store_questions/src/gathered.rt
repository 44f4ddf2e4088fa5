//! What was gathered of lines, and the text that asks with it.
ghost use Rattle.std.specs.Prelude.{◌≡◌, ◌++◌, ◌∷◌, [], codes, filter_map, find, length, option_map, ◌==◌, OnOk, IfOk, Ok, true, false};
ghost use Rattle.std.specs.List.{flat_map, join_with_byte};
ghost use Rattle.std.specs.Option.{option_copied, unwrap_or};
ghost use Rattle.std.specs.Fmt.{decimal};
ghost use Rattle.text_defs.specs.Words.{line_feed, space};
ghost use Rattle.kit_defs.specs.Kits.{roster_of};
ghost use Rattle.input_defs.specs.Fronts.{front_text};
ghost use Rattle.store_defs.specs.Asking as plain;
ghost use Rattle.store_question_defs.specs.Lines.{first_view, is_reply};
ghost use Rattle.store_question_defs.specs.Inputs.{text_of};
ghost use Rattle.store_questions.specs.Gathering.{gathered_text, is_too_many, nothing_gathered, with_key, with_line, with_reply, with_view};
ghost use Rattle.store_questions.specs.Views.{gathered};

use crate::said::{process_of_key, says_reply, says_view};
use kit_file::write_kit;
use kit_reading::Kit;
use rp_base::{NoMemory, Pid, PidSet};
use std::alloc::Global;
use text_codec::push_number;

/// How many replies there may be.
const MOST_REPLIES: usize = 1024;

/// A line that says the reply key of a process.
#[derive(Drop)]
pub(crate) struct KeyLine {
    process: Pid,
    line: Vec<u8>,
}

/// What was gathered of the lines so far.
#[derive(Drop)]
pub(crate) struct Gathered {
    keys: Vec<KeyLine>,

    // the last line that says a view
    view: Option<Vec<u8>>,

    // the lines of replies
    replies: Vec<u8>,

    // how many replies may still come
    left: usize,
}

fn push_line(out: &mut Vec<u8>, line: &[u8]) -> Result<(), NoMemory>
    ensures { OnOk result (out.new.items ≡ out.old.items ++ (line.now ++ line_feed ∷ [])) }
{
    out.extend_from_slice(line)?;
    out.push(b'\n')?;
    Ok(())
}

fn push_member(out: &mut Vec<u8>, member: Pid) -> Result<(), NoMemory>
    ensures { OnOk result (out.new.items ≡ out.old.items ++ space ∷ decimal member) }
{
    out.push(b' ')?;
    push_number(out, member.get().into())
}

fn push_members(out: &mut Vec<u8>, members: &[Pid]) -> Result<(), NoMemory>
    ensures { OnOk result (out.new.items ≡ out.old.items ++ flat_map (λ m. space ∷ decimal m) members.now) }
{
    for member in members {
        push_member(out, *member)?;
    }
    Ok(())
}

// The line of the kit's first view.
#[tactic(auto, using(crate::proofs::Written::first_view_written))]
fn first_view_line(alloc: Global, kit: &Kit) -> Result<Vec<u8>, NoMemory>
    ensures { IfOk result (λ line. line.items ≡ first_view kit.now) }
{
    let mut line = b"view 0 :".to_vec(alloc)?;
    push_members(&mut line, kit.genesis())?;
    Ok(line)
}

impl Gathered {
    /// Nothing, of no line.
    #[tactic(auto, unfolding(store_defs::specs::Asking::most_replies))]
    pub(crate) fn new(alloc: Global) -> Gathered
        ensures { gathered result ≡ nothing_gathered }
    {
        Gathered {
            keys: Vec::new(alloc),
            view: None,
            replies: Vec::new(alloc),
            left: MOST_REPLIES,
        }
    }

    // With the line, where it says a reply key.
    fn take_key(&mut self, alloc: Global, kit: &Kit, line: &[u8]) -> Result<(), NoMemory>
        ensures { OnOk result (gathered self.new ≡ with_key kit.now line.now (gathered self.old)) }
    {
        if let Some(process) = process_of_key(kit, line) {
            let line = line.to_vec(alloc)?;
            self.keys.push(KeyLine { process, line })?;
        }
        Ok(())
    }

    // With the line, where it says a view.
    fn take_view(&mut self, alloc: Global, line: &[u8]) -> Result<(), NoMemory>
        ensures { OnOk result (gathered self.new ≡ with_view line.now (gathered self.old)) }
    {
        if says_view(line) {
            self.view = Some(line.to_vec(alloc)?);
        }
        Ok(())
    }

    // With the line, where it says a reply to the payload. Answers false where it is one too many.
    fn take_reply(&mut self, alloc: Global, payload: &[u8], line: &[u8]) -> Result<bool, NoMemory>
        ensures taken { result ≡ Ok true → gathered self.new ≡ with_reply payload.now line.now (gathered self.old) }
        ensures fits { result ≡ Ok true → is_too_many payload.now line.now (gathered self.old) ≡ false }
        ensures many { result ≡ Ok false → is_too_many payload.now line.now (gathered self.old) ≡ true }
    {
        if !says_reply(alloc, payload, line)? {
            return Ok(true);
        }
        if self.left == 0 {
            return Ok(false);
        }
        push_line(&mut self.replies, line)?;
        self.left -= 1;
        Ok(true)
    }

    /// With what the line says. Answers false where it says one reply too many.
    ///
    /// # Errors
    /// [`NoMemory`] where room for it is refused.
    pub(crate) fn take(
        &mut self,
        alloc: Global,
        kit: &Kit,
        payload: &[u8],
        line: &[u8],
    ) -> Result<bool, NoMemory>
        ensures taken { result ≡ Ok true → gathered self.new ≡ with_line kit.now payload.now (gathered self.old) line.now }
        ensures fits { result ≡ Ok true → is_too_many payload.now line.now (gathered self.old) ≡ false }
        ensures many { result ≡ Ok false → is_too_many payload.now line.now (gathered self.old) ≡ true }
    {
        self.take_key(alloc, kit, line)?;
        self.take_view(alloc, line)?;
        self.take_reply(alloc, payload, line)
    }

    // The first line that says a key of this process.
    fn key_line(&self, process: Pid) -> Option<&[u8]>
        ensures { option_copied result ≡ plain.key_in (gathered self.now).keys process }
    {
        for key in &self.keys {
            if key.process == process {
                return Some(key.line.as_slice());
            }
        }
        None
    }

    // The first lines that say keys of these processes.
    fn push_keys(&self, processes: PidSet, out: &mut Vec<u8>) -> Result<(), NoMemory>
        ensures { OnOk result (out.new.items ≡ out.old.items ++ text_of (filter_map (plain.key_in (gathered self.now).keys) processes)) }
    {
        let mut rest = processes;
        'rest: while let Some(process) = rest.pop_first() {
            if let Some(line) = self.key_line(process) {
                push_line(out, line)?;
            }
        }
        Ok(())
    }

    // The line of the view: the last one, or that of the kit's first view.
    fn push_view(&self, alloc: Global, kit: &Kit, out: &mut Vec<u8>) -> Result<(), NoMemory>
        ensures { OnOk result (out.new.items ≡ out.old.items
            ++ (unwrap_or (gathered self.now).view (first_view kit.now) ++ line_feed ∷ [])) }
    {
        match &self.view {
            Some(line) => push_line(out, line),
            None => push_line(out, &first_view_line(alloc, kit)?),
        }
    }

    /// The kit, and the lines that ask.
    ///
    /// # Errors
    /// [`NoMemory`] where room for the text is refused.
    #[tactic(auto, using(crate::proofs::Written::text_written))]
    pub(crate) fn text(&self, alloc: Global, kit: &Kit) -> Result<Vec<u8>, NoMemory>
        ensures { IfOk result (λ text. text.items ≡ gathered_text kit.now (gathered self.now)) }
    {
        let mut text = Vec::new(alloc);
        write_kit(kit, &mut text)?;
        text.extend_from_slice(b"go\n")?;
        self.push_keys(kit.roster().processes(), &mut text)?;
        self.push_view(alloc, kit, &mut text)?;
        text.extend_from_slice(&self.replies)?;
        Ok(text)
    }
}
