//! The boot that answers.

ghost use Rattle.std.specs.Prelude.{◌≡◌, IfErr, IfOk, OnErr, OnOk, Some, length};
ghost use Rattle.mem_system.specs.Boots.{IsSizedAs};
ghost use Rattle.script_lines.specs.Verb.{IsNames};
ghost use Rattle.script_lint.specs.Lines.{HasValidCounts};
ghost use Rattle.script_replay.specs.Lines.{system_state};
ghost use Rattle.line_server.specs.Known.{KeepsTerms, terms_of};
ghost use Rattle.line_server.specs.Sessions.{EndsTurn, FailsSession, FailsTurn, ServesSession};
ghost use Rattle.line_server.specs.Lines.{text_of};
ghost use Rattle.line_server.specs.Turns.{HasAnswer, ServesAtMost, WritesTurn};

use crate::answering::answer_line;
use crate::fault::ServeFault;
use crate::form::SessionForm;
use crate::input_line::{InputLine, read_input_line};
use crate::refusing::{bad_line, refuse_text};
use crate::write_and_flush;
use cpu_part::{BootName, Tables};
use mem_system::{Cpu, Locked};
use script_lines::script::{is_skipped, parse_line};
use script_lines::verb::Names;
use std::alloc::{AllocError, Global};
use std::io::{BufReader, Read, Write};
use std::marker::Model;
use zone_blocks::config::Config;

/// A boot that answers lines, with the table of the commands' names, its sizes, and what it writes for a line.
pub struct Server<N: BootName> {
    names: Names,
    locked: Locked<N>,
    tables: Tables<N>,
    cpus: Vec<Cpu<N>>,
    sizes: Config,
    form: SessionForm,
}

impl<N: BootName> Model for Server<N> {
    ghost use Rattle.std.specs.Prelude.{◌≡◌, length};
    ghost use Rattle.mem_system.specs.Boots.{IsSizedAs};
    ghost use Rattle.script_lines.specs.Verb.{IsNames};
    ghost use Rattle.script_lint.specs.Lines.{HasValidCounts};
    ghost use Rattle.script_replay.specs.Lines.{system_state};
    ghost use Rattle.line_server.specs.Known.{KnownServer};

    ghost Value = { KnownServer };

    ghost view = { λ s. record {
      sizes = s.sizes;
      form = s.form;
      state = system_state s.locked s.cpus.items;
    } };

    ghost invariant = { λ s. (length s.cpus.items ≡ N.table.cpus) × IsSizedAs s.sizes N.table
        × HasValidCounts s.sizes × IsNames s.names };
}

impl<N: BootName> Server<N> {
    /// A server over the parts of a boot of these sizes.
    pub fn new(
        names: Names,
        locked: Locked<N>,
        tables: Tables<N>,
        cpus: Vec<Cpu<N>>,
        sizes: Config,
        form: SessionForm,
    ) -> Server<N>
        requires names { IsNames names }
        requires count { length cpus.items ≡ N.table.cpus }
        requires sized { IsSizedAs sizes N.table }
        requires counts { HasValidCounts sizes }
        ensures state { result.state ≡ system_state locked cpus.items }
        ensures sizes { result.sizes ≡ sizes }
        ensures form { result.form ≡ form }
    {
        Server {
            names,
            locked,
            tables,
            cpus,
            sizes,
            form,
        }
    }

    /// The parts of the boot again.
    pub fn into_parts(self) -> (Locked<N>, Tables<N>, Vec<Cpu<N>>)
        ensures state { system_state result.0 result.2.items ≡ self.state }
        ensures count { length result.2.items ≡ N.table.cpus }
    {
        let Server {
            names: _,
            locked,
            tables,
            cpus,
            sizes: _,
            form: _,
        } = self;
        (locked, tables, cpus)
    }

    /// Answers lines, each before the next one is read, up to the line `quit` or the end of the input. It also ends
    /// after 2^64 - 1 lines, as if the input had failed.
    pub fn serve<I: Read, O: Write>(
        &mut self,
        alloc: Global,
        input: &mut I,
        output: &mut O,
    ) -> Result<(), ServeFault>
        ensures served { OnOk result (ServesSession (terms_of N.table self.old) self.old.sizes
            (I.remaining input.old) self.old.state self.new.state (O.contents output.old) (O.contents output.new)) }
        ensures failed { IfErr result (FailsSession (terms_of N.table self.old) self.old.sizes
            (I.remaining input.old) self.old.state self.new.state (O.contents output.old) (O.contents output.new)) }
        ensures terms { KeepsTerms self.old self.new }
    {
        for before in 0..usize::MAX {
            let goes_on = match self.serve_line(alloc, before + 1, input, output) {
                Ok(goes_on) => goes_on,
                Err(fault) => return Err(fault),
            };
            if !goes_on {
                return Ok(());
            }
        }
        Err(ServeFault::Input)
    }

    /// Does what `serve` does, with a buffer before the input, which is read ahead of the lines.
    pub fn serve_buffered<I: Read, O: Write>(
        &mut self,
        alloc: Global,
        input: &mut I,
        output: &mut O,
    ) -> Result<(), ServeFault>
        ensures served { OnOk result (ServesSession (terms_of N.table self.old) self.old.sizes
            (I.remaining input.old) self.old.state self.new.state (O.contents output.old) (O.contents output.new)) }
        ensures failed { IfErr result (FailsSession (terms_of N.table self.old) self.old.sizes
            (I.remaining input.old) self.old.state self.new.state (O.contents output.old) (O.contents output.new)) }
        ensures terms { KeepsTerms self.old self.new }
    {
        match BufReader::new(alloc, input) {
            Ok(mut lines) => self.serve(alloc, &mut lines, output),
            Err(_) => Err(ServeFault::NoMemory),
        }
    }

    /// Reads a line, writes its answer and an empty line, and flushes the output. The line's part of a log names it by
    /// this number. False if the session ends instead: the line is `quit`, or the input has ended. Nothing is written
    /// then.
    pub fn serve_line<I: Read, O: Write>(
        &mut self,
        alloc: Global,
        number: usize,
        input: &mut I,
        output: &mut O,
    ) -> Result<bool, ServeFault>
        ensures served { IfOk result (EndsTurn (terms_of N.table self.old) self.old.sizes number
            (I.remaining input.old) (I.remaining input.new) self.old.state self.new.state
            (O.contents output.old) (O.contents output.new)) }
        ensures failed { IfErr result (FailsTurn (terms_of N.table self.old) self.old.sizes number
            self.old.state self.new.state (O.contents output.old) (O.contents output.new)) }
        ensures terms { KeepsTerms self.old self.new }
    {
        let Some(input_line) = read_input_line(alloc, input)? else {
            return Ok(false);
        };
        let answer = self.answer(alloc, number, &input_line)?;
        match write_and_flush(&answer, output) {
            Ok(()) => Ok(true),
            Err(_) => Err(ServeFault::Output),
        }
    }

    // Serves the line of this number, and returns its answer with an empty line after it.
    #[tactic(auto, using(crate::proofs::Answered::turn_written))]
    fn answer(
        &mut self,
        alloc: Global,
        number: usize,
        input_line: &InputLine,
    ) -> Result<Vec<u8>, AllocError>
        ensures answered { IfOk result (λ answer. WritesTurn (terms_of N.table self.old) self.old.sizes
            number (text_of input_line.now) self.old.state self.new.state answer.items) }
        ensures failed { OnErr result
            (ServesAtMost (terms_of N.table self.old) self.old.state self.new.state) }
        ensures terms { KeepsTerms self.old self.new }
    {
        let mut answer = self.answer_plainly(alloc, number, input_line)?;
        answer.push(b'\n')?;
        Ok(answer)
    }

    // The same without the empty line.
    fn answer_plainly(
        &mut self,
        alloc: Global,
        number: usize,
        input_line: &InputLine,
    ) -> Result<Vec<u8>, AllocError>
        ensures answered { IfOk result (λ answer. HasAnswer (terms_of N.table self.old) self.old.sizes
            number (text_of input_line.now) self.old.state self.new.state answer.items) }
        ensures failed { OnErr result
            (ServesAtMost (terms_of N.table self.old) self.old.state self.new.state) }
        ensures terms { KeepsTerms self.old self.new }
    {
        match input_line {
            InputLine::Text(text) => self.answer_text(alloc, number, text),
            InputLine::TooLong => bad_line(alloc, self.form, b"line too long"),
        }
    }

    // The same for a line with this text.
    fn answer_text(
        &mut self,
        alloc: Global,
        number: usize,
        text: &[u8],
    ) -> Result<Vec<u8>, AllocError>
        ensures answered { IfOk result (λ answer. HasAnswer (terms_of N.table self.old) self.old.sizes
            number (Some text.now) self.old.state self.new.state answer.items) }
        ensures failed { OnErr result
            (ServesAtMost (terms_of N.table self.old) self.old.state self.new.state) }
        ensures terms { KeepsTerms self.old self.new }
    {
        if is_skipped(text) {
            return Ok(Vec::new(alloc));
        }
        match parse_line(&self.names, number, text, &self.sizes) {
            Some(line) => answer_line(
                alloc,
                self.form,
                &mut self.locked,
                &self.tables,
                &mut self.cpus,
                &line,
                text,
            ),
            None => refuse_text(alloc, self.form, &self.names, text, &self.sizes),
        }
    }
}
