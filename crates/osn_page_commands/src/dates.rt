//! The pages on the dates of an input, a date a line.
ghost use Rattle.std.specs.Prelude.{◌≡◌, ◌++◌, map, IfOk, IfErr, OnOk, None, string_bytes};
ghost use Rattle.std.specs.List.{flat_map, list_any};
ghost use Rattle.std.specs.Str.Lines.{lines};
ghost use Rattle.osn_core.specs.Edition.{edition_model};
ghost use Rattle.osn_register.specs.Plain.{code_refusal};
ghost use Rattle.osn_register.specs.Refusal.{IsRefusalOrNoMemory};
ghost use Rattle.osn_page_commands.specs.PageText as spec;

use crate::answer_line::read_line;
use crate::date_hint::misuse_lines;
use crate::page_request::LineRules;
use crate::page_text::{entry_text, lacks_day, lacks_set, set_text};
use crate::read_request::{any_date_or_misuse, reading_beside};
use osn_core::Edition;
use osn_days::Weekday;
use osn_grammar::{TextReading, read_date};
use osn_pages::Page;
use osn_register::{Refusal, Register};
use osn_report::Misuse;
use osn_written::DateFault;
use std::alloc::{AllocError, Global};

/// Returns the lines of a text, without their ends.
fn lines_of(alloc: Global, text: &str) -> Result<Vec<&str>, AllocError>
    ensures { IfOk result (λ found. map (λ line. line.now) found.items ≡ lines text.now) }
{
    text.lines().collect(alloc)
}

/// Returns the page on the date of a line, or what is wrong with the line.
fn page_or_reason(
    alloc: Global,
    edition: &Edition,
    code: &str,
    text: &str,
    page: Result<Page, Misuse>,
) -> Result<String, Refusal>
    ensures text { IfOk result (λ lines. string_bytes lines
        ≡ spec.page_or_reason (edition_model edition.now) code.now text.now page) }
    ensures refused { IfErr result
        (spec.IsRefusalOrLack (code_refusal (edition_model edition.now).territories code.now)) }
{
    match page {
        Ok(page) => entry_text(alloc, edition, code, text, page, false),
        Err(misuse) => Ok(misuse_lines(alloc, misuse, text)?),
    }
}

/// Returns the page on what was read from a line, or what is wrong with the line.
fn page_of_read(
    alloc: Global,
    edition: &Edition,
    code: &str,
    text: &str,
    weekday: Option<Weekday>,
    date: Result<TextReading, DateFault>,
) -> Result<String, Refusal>
    ensures text { IfOk result (λ lines. string_bytes lines
        ≡ spec.page_of_read (edition_model edition.now) code.now text.now weekday date) }
    ensures refused { IfErr result
        (spec.IsRefusalOrLack (code_refusal (edition_model edition.now).territories code.now)) }
{
    match date {
        Ok(TextReading::Set) => set_text(alloc, edition, code, text, weekday, false),
        _ => {
            let page = reading_beside(any_date_or_misuse(date), weekday);
            page_or_reason(alloc, edition, code, text, page)
        }
    }
}

/// Returns what is printed for a line.
fn line_text(
    alloc: Global,
    edition: &Edition,
    code: &str,
    rules: LineRules,
    text: &str,
) -> Result<String, Refusal>
    ensures text { IfOk result (λ lines. string_bytes lines
        ≡ spec.line_text (edition_model edition.now) code.now rules text.now) }
    ensures refused { IfErr result
        (spec.IsRefusalOrLack (code_refusal (edition_model edition.now).territories code.now)) }
{
    let date = read_date(alloc, text, rules.order)?;
    if rules.form.is_json {
        let line = read_line(alloc, edition, code, text, date, rules.weekday)?;
        return Ok(line);
    }
    page_of_read(alloc, edition, code, text, rules.weekday, date)
}

/// Appends what is printed for each of these lines.
fn push_texts(
    out: &mut String,
    alloc: Global,
    edition: &Edition,
    code: &str,
    rules: LineRules,
    texts: &[&str],
) -> Result<(), Refusal>
    ensures text { OnOk result (string_bytes out.new ≡ string_bytes out.old
        ++ flat_map (spec.line_text (edition_model edition.now) code.now rules)
        (map (λ text. text.now) texts.now)) }
    ensures refused { IfErr result
        (spec.IsRefusalOrLack (code_refusal (edition_model edition.now).territories code.now)) }
{
    for text in texts {
        let lines = line_text(alloc, edition, code, rules, text)?;
        out.push_str(lines.as_str())?;
    }
    Ok(())
}

/// Returns what is printed for each of these lines.
fn texts_of(
    alloc: Global,
    edition: &Edition,
    code: &str,
    rules: LineRules,
    texts: &[&str],
) -> Result<String, Refusal>
    ensures text { IfOk result (λ pages. string_bytes pages
        ≡ flat_map (spec.line_text (edition_model edition.now) code.now rules)
        (map (λ text. text.now) texts.now)) }
    ensures refused { IfErr result
        (spec.IsRefusalOrLack (code_refusal (edition_model edition.now).territories code.now)) }
{
    let mut pages = String::new(alloc);
    push_texts(&mut pages, alloc, edition, code, rules, texts)?;
    Ok(pages)
}

/// Returns the pages on the dates of a text, a date a line, in the territory of a code.
pub(crate) fn dates_text(
    alloc: Global,
    edition: &Edition,
    code: &str,
    rules: LineRules,
    text: &str,
) -> Result<String, Refusal>
    ensures lawful { OnOk result
        (code_refusal (edition_model edition.now).territories code.now ≡ None) }
    ensures text { IfOk result (λ pages. string_bytes pages
        ≡ spec.dates_text (edition_model edition.now) code.now rules text.now) }
    ensures refused { IfErr result
        (IsRefusalOrNoMemory (code_refusal (edition_model edition.now).territories code.now)) }
{
    edition.register().territory(code)?;
    let texts = lines_of(alloc, text)?;
    texts_of(alloc, edition, code, rules, texts.as_slice())
}

/// Returns whether a line has no page, or its date means no day and that is a refusal.
fn page_fails(
    alloc: Global,
    register: &Register,
    code: &str,
    is_strict: bool,
    page: Result<Page, Misuse>,
) -> Result<bool, Refusal>
    ensures value { IfOk result (λ fails. fails
        ≡ spec.page_fails register.now.territories code.now is_strict page) }
    ensures refused { IfErr result
        (IsRefusalOrNoMemory (code_refusal register.now.territories code.now)) }
{
    match page {
        Ok(page) if is_strict => lacks_day(alloc, register, code, page),
        Ok(_) => Ok(false),
        Err(_) => Ok(true),
    }
}

/// Returns whether a line fails, by what was read from it.
fn read_fails(
    alloc: Global,
    register: &Register,
    code: &str,
    rules: LineRules,
    text: &str,
    date: Result<TextReading, DateFault>,
) -> Result<bool, Refusal>
    ensures value { IfOk result (λ fails. fails
        ≡ spec.read_fails register.now.territories code.now rules text.now date) }
    ensures refused { IfErr result
        (IsRefusalOrNoMemory (code_refusal register.now.territories code.now)) }
{
    match date {
        Ok(TextReading::Set) if rules.form.is_strict => lacks_set(alloc, register, code, text),
        Ok(TextReading::Set) => Ok(false),
        _ => {
            let page = reading_beside(any_date_or_misuse(date), rules.weekday);
            page_fails(alloc, register, code, rules.form.is_strict, page)
        }
    }
}

/// Returns whether a line fails: it has no page, or its date means no day and that is a refusal.
fn line_fails(
    alloc: Global,
    register: &Register,
    code: &str,
    rules: LineRules,
    text: &str,
) -> Result<bool, Refusal>
    ensures value { IfOk result (λ fails. fails
        ≡ spec.line_fails register.now.territories code.now rules text.now) }
    ensures refused { IfErr result
        (spec.IsRefusalOrLack (code_refusal register.now.territories code.now)) }
{
    let date = read_date(alloc, text, rules.order)?;
    read_fails(alloc, register, code, rules, text, date)
}

/// Returns whether one of these lines fails.
fn one_fails(
    alloc: Global,
    register: &Register,
    code: &str,
    rules: LineRules,
    texts: &[&str],
) -> Result<bool, Refusal>
    ensures value { IfOk result (λ fails. fails
        ≡ list_any (spec.line_fails register.now.territories code.now rules)
        (map (λ text. text.now) texts.now)) }
    ensures refused { IfErr result
        (spec.IsRefusalOrLack (code_refusal register.now.territories code.now)) }
{
    for text in texts {
        if line_fails(alloc, register, code, rules, text)? {
            return Ok(true);
        }
    }
    Ok(false)
}

/// Returns whether a line of a text fails.
pub(crate) fn some_line_fails(
    alloc: Global,
    register: &Register,
    code: &str,
    rules: LineRules,
    text: &str,
) -> Result<bool, Refusal>
    ensures value { IfOk result (λ fails. fails
        ≡ spec.some_line_fails register.now.territories code.now rules text.now) }
    ensures refused { IfErr result
        (IsRefusalOrNoMemory (code_refusal register.now.territories code.now)) }
{
    register.territory(code)?;
    let texts = lines_of(alloc, text)?;
    one_fails(alloc, register, code, rules, texts.as_slice())
}
