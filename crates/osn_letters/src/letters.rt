//! A table of letters, as the bytes of its text come.
ghost use Rattle.std.specs.Prelude.{ℕ, List, ◌≡◌, ◌+◌, ◌≤◌, ◌<◌, ◌^◌, ◌∷◌, [], length, take};
ghost use Rattle.std.specs.Prelude.{OnOk, IfErr, IfOk};
ghost use Rattle.osn_letters.specs.LettersInside as inside;
ghost use Rattle.osn_days.specs.Rules.{newest_rules};
ghost use Rattle.osn_letters.specs.declared.start.ByteOrderMark.TheVariants.{Past};
ghost use Rattle.osn_letters.specs.Records.{next_line};
ghost use Rattle.osn_letters.specs.ByteOrderMark.{held};
ghost use Rattle.osn_letters.specs.Table.{whole, basis, letters_written};
ghost use Rattle.osn_letters.specs.TableInside.{letters_tally, tally_of, written_of};
ghost use Rattle.osn_letters.specs.WriterInside.{waiting};

use crate::csv_text::RowWriter;
use crate::fault::LettersFault;
use crate::parser::RecordParser;
use crate::separator::Separator;
use crate::settings::TableSettings;
use crate::start::{ByteOrderMark, MARK};
use crate::table::Table;
use crate::tally::Tally;
use crate::territory_finder::TerritoryFinder;
use osn_register::Register;
use std::alloc::{AllocError, Global};

/// The records that come, and the table that is made of them.
#[derive(Drop)]
pub(crate) struct Letters<'a> {
    pub(crate) start: ByteOrderMark,
    pub(crate) parser: RecordParser,
    pub(crate) table: Table<'a>,
}

impl<'a> Letters<'a> {
    /// Returns the state at the beginning of a text.
    pub(crate) fn new(
        alloc: Global,
        register: &'a Register,
        edition: usize,
        settings: TableSettings<'a>,
    ) -> Result<Letters<'a>, AllocError>
        ensures ready { IfOk result inside.IsReady }
        ensures line { IfOk result (λ letters. letters.parser.line ≡ 1) }
        ensures empty { IfOk result (λ letters. waiting letters.table.out ≡ []) }
        ensures text { IfOk result (λ letters. (text : List ℕ) → inside.text_from letters text
            ≡ letters_written (basis newest_rules register.now.territories edition settings.entry)
            text) }
        ensures tally { IfOk result (λ letters. (text : List ℕ) → inside.tally_from letters text
            ≡ letters_tally (basis newest_rules register.now.territories edition settings.entry)
            text) }
    {
        let territories = TerritoryFinder::new(alloc, register)?;
        Ok(Letters {
            start: ByteOrderMark::Nothing,
            parser: RecordParser::new(alloc, settings.keeps_going, settings.separator),
            table: Table {
                alloc,
                territories,
                edition,
                settings,
                rows: None,
                tally: Tally::new(alloc),
                out: RowWriter::new(Separator::Comma, Vec::new(alloc)),
            },
        })
    }
}

impl Letters<'_> {
    /// Takes the next byte after the beginning of the text.
    #[inline]
    fn take_after(&mut self, byte: u8) -> Result<(), LettersFault>
        requires ready { inside.IsReady self.old }
        requires line { self.old.parser.line + 1 < 2 ^ 64 }
        ensures ready { OnOk result (inside.IsReady self.new) }
        ensures line { OnOk result
            (self.new.parser.line
            ≡ next_line self.old.parser.returned self.old.parser.line byte) }
        ensures start { self.new.start ≡ self.old.start }
        ensures takes { OnOk result (inside.TakesAfter self.old self.new (byte ∷ [])) }
        ensures counts { OnOk result (inside.CountsAfter self.old self.new (byte ∷ [])) }
        ensures stops { IfErr result (inside.StopsAfter self.old self.new (byte ∷ [])) }
    {
        let Some(ended) = self.parser.take(byte)? else {
            return Ok(());
        };
        let separator = self.parser.separator();
        self.table.take(&mut self.parser.fields, ended, separator)?;
        self.parser.clear();
        Ok(())
    }

    /// Takes the bytes that are held back, which are not a byte order mark.
    fn take_held(&mut self) -> Result<(), LettersFault>
        requires ready { inside.IsReady self.old }
        requires line { self.old.parser.line + 1 < 2 ^ 64 }
        ensures ready { OnOk result (inside.IsReady self.new) }
        ensures line { OnOk result (self.new.parser.line ≡ self.old.parser.line) }
        ensures start { self.new.start ≡ Past }
        ensures takes { OnOk result (inside.TakesAfter self.old self.new (held self.old.start)) }
        ensures counts { OnOk result (inside.CountsAfter self.old self.new (held self.old.start)) }
        ensures stops { IfErr result (inside.StopsAfter self.old self.new
            (held self.old.start)) }
    {
        let start = self.start;
        self.start = ByteOrderMark::Past;
        match start {
            ByteOrderMark::Nothing | ByteOrderMark::Past => Ok(()),
            ByteOrderMark::OneByte => self.take_after(MARK[0]),
            ByteOrderMark::TwoBytes => {
                self.take_after(MARK[0])?;
                self.take_after(MARK[1])
            }
        }
    }

    /// Takes the next byte.
    fn take_byte(&mut self, byte: u8) -> Result<(), LettersFault>
        requires ready { inside.IsReady self.old }
        requires line { self.old.parser.line + 1 < 2 ^ 64 }
        ensures ready { OnOk result (inside.IsReady self.new) }
        ensures line { OnOk result (self.new.parser.line ≤ self.old.parser.line + 1) }
        ensures takes { OnOk result (inside.TakesBytes self.old self.new (byte ∷ [])) }
        ensures counts { OnOk result (inside.CountsBytes self.old self.new (byte ∷ [])) }
        ensures stops { IfErr result (inside.StopsAt self.old self.new (byte ∷ [])) }
    {
        if let Some(start) = self.start.next(byte) {
            self.start = start;
            return Ok(());
        }
        self.take_held()?;
        self.take_after(byte)
    }

    /// Takes some of the next bytes after the beginning of the text: a run of those that only join
    /// the current field, and one more. Returns how many.
    fn take_some_after(&mut self, bytes: &[u8]) -> Result<usize, LettersFault>
        requires ready { inside.IsReady self.old }
        requires line { self.old.parser.line + 1 < 2 ^ 64 }
        requires some { 0 < length bytes.now }
        ensures some { IfOk result (λ len. (0 < len) × (len ≤ length bytes.now)) }
        ensures ready { OnOk result (inside.IsReady self.new) }
        ensures line { IfOk result (λ len. self.new.parser.line ≤ self.old.parser.line + len) }
        ensures start { self.new.start ≡ self.old.start }
        ensures takes { IfOk result (λ len.
            inside.TakesAfter self.old self.new (take len bytes.now)) }
        ensures counts { IfOk result (λ len.
            inside.CountsAfter self.old self.new (take len bytes.now)) }
        ensures stops { IfErr result (inside.StopsAfter self.old self.new bytes.now) }
    {
        let len = self.parser.take_run(bytes)?;
        if len == bytes.len() {
            return Ok(len);
        }
        self.take_after(bytes[len])?;
        Ok(len + 1)
    }

    /// Takes some of the next bytes. Returns how many.
    fn take_some(&mut self, bytes: &[u8]) -> Result<usize, LettersFault>
        requires ready { inside.IsReady self.old }
        requires line { self.old.parser.line + 1 < 2 ^ 64 }
        requires some { 0 < length bytes.now }
        ensures some { IfOk result (λ len. (0 < len) × (len ≤ length bytes.now)) }
        ensures ready { OnOk result (inside.IsReady self.new) }
        ensures line { IfOk result (λ len. self.new.parser.line ≤ self.old.parser.line + len) }
        ensures takes { IfOk result (λ len.
            inside.TakesBytes self.old self.new (take len bytes.now)) }
        ensures counts { IfOk result (λ len.
            inside.CountsBytes self.old self.new (take len bytes.now)) }
        ensures stops { IfErr result (inside.StopsAt self.old self.new bytes.now) }
    {
        if self.start == ByteOrderMark::Past {
            return self.take_some_after(bytes);
        }
        self.take_byte(bytes[0])?;
        Ok(1)
    }

    /// Takes the next bytes.
    pub(crate) fn take_piece(&mut self, piece: &[u8]) -> Result<(), LettersFault>
        requires ready { inside.IsReady self.old }
        requires line { self.old.parser.line + length piece.now < 2 ^ 64 }
        ensures ready { OnOk result (inside.IsReady self.new) }
        ensures line { OnOk result
            (self.new.parser.line ≤ self.old.parser.line + length piece.now) }
        ensures takes { OnOk result (inside.TakesBytes self.old self.new piece.now) }
        ensures counts { OnOk result (inside.CountsBytes self.old self.new piece.now) }
        ensures stops { IfErr result (inside.StopsAt self.old self.new piece.now) }
    {
        let mut count = 0;
        while count < piece.len() {
            count += self.take_some(&piece[count..])?;
        }
        Ok(())
    }

    /// Takes the record that the end of the text ends, if any.
    fn take_last(&mut self) -> Result<(), LettersFault>
        requires { inside.IsReady self.old }
        ensures takes { OnOk result (inside.Wrote (waiting self.old.table.out)
            (waiting self.new.table.out)
            (inside.text_after self.old []) (written_of self.new.table [])) }
        ensures counts { OnOk result
            (inside.tally_after self.old [] ≡ tally_of self.new.table []) }
        ensures stops { IfErr result (inside.Stops (waiting self.old.table.out)
            (waiting self.new.table.out) (inside.text_after self.old [])) }
    {
        if let Some(ended) = self.parser.finish()? {
            let separator = self.parser.separator();
            self.table.take(&mut self.parser.fields, ended, separator)?;
        }
        Ok(())
    }

    /// Ends the text.
    pub(crate) fn finish(&mut self) -> Result<(), LettersFault>
        requires ready { inside.IsReady self.old }
        requires line { self.old.parser.line + 1 < 2 ^ 64 }
        ensures takes { OnOk result (inside.Wrote (waiting self.old.table.out)
            (waiting self.new.table.out)
            (inside.text_from self.old []) whole) }
        ensures counts { OnOk result
            (inside.tally_from self.old [] ≡ tally_of self.new.table []) }
        ensures stops { IfErr result (inside.Stops (waiting self.old.table.out)
            (waiting self.new.table.out) (inside.text_from self.old [])) }
    {
        self.take_held()?;
        self.take_last()?;
        self.table.finish()
    }
}
