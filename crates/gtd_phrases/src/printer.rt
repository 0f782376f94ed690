//! The words of pieces.

ghost use Rattle.std.specs.Prelude.{◌≡◌, ◌≤◌, ◌<◌, ◌+◌, ◌++◌, [], ◌∷◌, codes, string_bytes, decimal, OnOk};
ghost use Rattle.gtd_phrases.specs.Runs.{run_of};
ghost use Rattle.gtd_phrases.specs.Pieces.{after, before, comma, days_words, figures_of, four_digits, number_text};
ghost use Rattle.gtd_phrases.specs.Pieces.{phrase_text, run_words, text, two_digits, weekday_if_set, weekday_joint};
ghost use Rattle.gtd_languages.specs.Forms.{form_of};
ghost use Rattle.gtd_phrases.specs.Pieces.{weekday_list};
ghost use Rattle.gtd_phrases.specs.Ranges.{AreWritten, IsWritten};
ghost use Rattle.gtd_phrases.specs.Tables.{list_last_in, word_in};

use crate::phrase::{Figures, Language, Phrase, Piece, figures_of};
use crate::table::{
    back_end_in, back_lead_in, beginning_in, date_ending_in, date_lead_in, day_in, each_lead_in,
    end_in, fixed_in, lead_in, list_end_in, list_last_in, list_lead_in, monday_in, month_in,
    of_month_in, ordinal_in, place_end_in, place_lead_in, run_lead_in, run_to_in, unit_in,
    weekday_in, word_in,
};
use gtd_languages::{Form, Role, Word, form_of};
use itoa::Buffer;
use std::alloc::AllocError;

/// Appends a word.
pub fn push_word(out: &mut String, language: Language, word: Word) -> Result<(), AllocError>
    ensures { OnOk result (string_bytes out.new ≡ string_bytes out.old ++ word_in language word) }
{
    out.push_str(word_in(language, word))
}

#[tactic(auto, using(std::proofs::lemmas::Fmt::decimal_digit))]
fn push_digit(out: &mut String, digit: u32) -> Result<(), AllocError>
    requires { digit < 10 }
    ensures { OnOk result (string_bytes out.new ≡ string_bytes out.old ++ (48 + digit) ∷ []) }
{
    out.push_str(Buffer::new().format(digit))
}

fn push_two_digits(out: &mut String, n: u32) -> Result<(), AllocError>
    requires { n < 100 }
    ensures { OnOk result (string_bytes out.new ≡ string_bytes out.old ++ two_digits n) }
{
    push_digit(out, n / 10)?;
    push_digit(out, n % 10)
}

fn push_four_digits(out: &mut String, n: u32) -> Result<(), AllocError>
    requires { n ≤ 9999 }
    ensures { OnOk result (string_bytes out.new ≡ string_bytes out.old ++ four_digits n) }
{
    push_digit(out, n / 1000)?;
    push_digit(out, n / 100 % 10)?;
    push_digit(out, n / 10 % 10)?;
    push_digit(out, n % 10)
}

#[tactic(auto, unfolding(crate::specs::Pieces::number_text))]
fn push_number(out: &mut String, figures: Figures, n: u32) -> Result<(), AllocError>
    requires { IsWritten figures n }
    ensures { OnOk result (string_bytes out.new ≡ string_bytes out.old ++ number_text figures n) }
{
    match figures {
        Figures::Nothing => Ok(()),
        Figures::Plain => out.push_str(Buffer::new().format(n)),
        Figures::Two => push_two_digits(out, n),
        Figures::Four => push_four_digits(out, n),
    }
}

// Three or more neighbouring weekdays: the first of them and the last, or zeros.
#[tactic(auto, unfolding(crate::specs::Runs::run_of))]
fn run_of(weekdays: u8) -> (u8, u8)
    ensures { result ≡ run_of weekdays }
{
    match weekdays {
        7 => (1, 3),
        14 => (2, 4),
        15 => (1, 4),
        28 => (3, 5),
        30 => (2, 5),
        31 => (1, 5),
        56 => (4, 6),
        60 => (3, 6),
        62 => (2, 6),
        63 => (1, 6),
        67 => (7, 2),
        71 => (7, 3),
        79 => (7, 4),
        95 => (7, 5),
        97 => (6, 1),
        99 => (6, 2),
        103 => (6, 3),
        111 => (6, 4),
        112 => (5, 7),
        113 => (5, 1),
        115 => (5, 2),
        119 => (5, 3),
        120 => (4, 7),
        121 => (4, 1),
        123 => (4, 2),
        124 => (3, 7),
        125 => (3, 1),
        126 => (2, 7),
        127 => (2, 1),
        _ => (0, 0),
    }
}

// What joins a weekday's name to the name before it.
fn weekday_joint(last: &'static str, weekdays: u8, weekday: u8) -> &'static str
    requires low { 1 ≤ weekday }
    requires high { weekday ≤ 7 }
    ensures { result.now ≡ weekday_joint last.now weekdays weekday }
{
    if weekdays % (1 << (weekday - 1)) == 0 {
        ""
    } else if weekdays >> weekday == 0 {
        last
    } else {
        ", "
    }
}

// Appends a weekday's name if its bit is set, with what joins it to the name before it.
#[tactic(auto, unfolding(crate::specs::Pieces::weekday_if_set))]
fn push_weekday(
    out: &mut String,
    language: Language,
    role: Role,
    weekdays: u8,
    weekday: u8,
) -> Result<(), AllocError>
    requires low { 1 ≤ weekday }
    requires high { weekday ≤ 7 }
    ensures { OnOk result (string_bytes out.new ≡ string_bytes out.old ++ weekday_if_set language role weekdays weekday) }
{
    if (weekdays >> (weekday - 1)) % 2 == 1 {
        out.push_str(weekday_joint(list_last_in(language, role), weekdays, weekday))?;
        out.push_str(day_in(language, role, weekday))
    } else {
        Ok(())
    }
}

#[tactic(auto, unfolding(crate::specs::Pieces::weekday_list))]
fn push_weekday_list(
    out: &mut String,
    language: Language,
    role: Role,
    weekdays: u8,
) -> Result<(), AllocError>
    ensures { OnOk result (string_bytes out.new ≡ string_bytes out.old ++ weekday_list language role weekdays) }
{
    push_weekday(out, language, role, weekdays, 1)?;
    push_weekday(out, language, role, weekdays, 2)?;
    push_weekday(out, language, role, weekdays, 3)?;
    push_weekday(out, language, role, weekdays, 4)?;
    push_weekday(out, language, role, weekdays, 5)?;
    push_weekday(out, language, role, weekdays, 6)?;
    push_weekday(out, language, role, weekdays, 7)
}

fn push_run(
    out: &mut String,
    language: Language,
    role: Role,
    run: (u8, u8),
) -> Result<(), AllocError>
    ensures { OnOk result (string_bytes out.new ≡ string_bytes out.old ++ run_words language role run) }
{
    out.push_str(run_lead_in(language, role))?;
    out.push_str(day_in(language, role, run.0))?;
    out.push_str(run_to_in(language, role))?;
    out.push_str(day_in(language, role, run.1))
}

#[tactic(auto, unfolding(crate::specs::Pieces::days_words))]
fn push_days(
    out: &mut String,
    language: Language,
    role: Role,
    weekdays: u8,
) -> Result<(), AllocError>
    ensures { OnOk result (string_bytes out.new ≡ string_bytes out.old ++ days_words language role weekdays) }
{
    let run = run_of(weekdays);
    if run.0 == 0 {
        out.push_str(list_lead_in(language, role))?;
        push_weekday_list(out, language, role, weekdays)?;
        return out.push_str(list_end_in(language, role));
    }
    push_run(out, language, role, run)?;
    out.push_str(list_end_in(language, role))
}

fn push_three(out: &mut String, a: &str, b: &str, c: &str) -> Result<(), AllocError>
    ensures { OnOk result (string_bytes out.new ≡ string_bytes out.old ++ (a.now ++ b.now ++ c.now)) }
{
    out.push_str(a)?;
    out.push_str(b)?;
    out.push_str(c)
}

fn comma(language: Language, after: bool) -> &'static str
    ensures { result.now ≡ comma language after }
{
    if after {
        word_in(language, Word::Comma)
    } else {
        ""
    }
}

fn push_two(out: &mut String, a: &str, b: &str) -> Result<(), AllocError>
    ensures { OnOk result (string_bytes out.new ≡ string_bytes out.old ++ (a.now ++ b.now)) }
{
    out.push_str(a)?;
    out.push_str(b)
}

// Appends the words before the number of a phrase, or all its words if it has none.
#[tactic(auto, unfolding(crate::specs::Pieces::before))]
fn push_before(out: &mut String, language: Language, phrase: Phrase) -> Result<(), AllocError>
    ensures { OnOk result (string_bytes out.new ≡ string_bytes out.old ++ before language phrase) }
{
    match phrase {
        Phrase::DateOf(named, _) => out.push_str(date_lead_in(language, named)),
        Phrase::DateOfEach(named) => out.push_str(each_lead_in(language, named)),
        Phrase::PlaceOf(role, n, weekday) => push_three(
            out,
            place_lead_in(language, role, n),
            weekday_in(language, weekday),
            place_end_in(language, role),
        ),
        Phrase::BackOf(role, n, weekday) => push_three(
            out,
            back_lead_in(language, role, n),
            weekday_in(language, weekday),
            back_end_in(language, role, n),
        ),
        Phrase::DaysOf(role, weekdays) => push_days(out, language, role, weekdays),
        Phrase::MondayOf(named) => out.push_str(monday_in(language, named)),
        Phrase::BeginningOf(month) => out.push_str(beginning_in(language, month)),
        Phrase::OfMonth(month) => out.push_str(of_month_in(language, month)),
        Phrase::Said(fixed) => out.push_str(fixed_in(language, fixed)),
        Phrase::Numbered(counted) => out.push_str(lead_in(language, counted)),
        Phrase::Lasting(_) => out.push_str(word_in(language, Word::For)),
        Phrase::Also(_) => out.push_str(word_in(language, Word::And)),
        Phrase::UntilHour(after) => {
            push_two(
                out,
                comma(language, after),
                word_in(language, Word::UntilTime),
            )
        }
        Phrase::UntilWeekday(after, weekday) => push_three(
            out,
            comma(language, after),
            word_in(language, Word::UntilDay),
            weekday_in(language, weekday),
        ),
        Phrase::UntilDate(after, _) => {
            push_two(
                out,
                comma(language, after),
                word_in(language, Word::UntilThe),
            )
        }
        Phrase::UntilFebruary(after) => {
            push_two(
                out,
                comma(language, after),
                word_in(language, Word::UntilTheEnd),
            )
        }
    }
}

// Appends the words after the number of a phrase.
#[tactic(auto, unfolding(crate::specs::Pieces::after))]
fn push_after(
    out: &mut String,
    language: Language,
    phrase: Phrase,
    form: Form,
) -> Result<(), AllocError>
    ensures { OnOk result (string_bytes out.new ≡ string_bytes out.old ++ after language phrase form) }
{
    match phrase {
        Phrase::DateOf(_, month) => {
            push_three(
                out,
                date_ending_in(language, form),
                " ",
                month_in(language, month),
            )?;
            out.push_str(" ")
        }
        Phrase::DateOfEach(_) => push_two(
            out,
            ordinal_in(language, form),
            word_in(language, Word::OfEach),
        ),
        Phrase::PlaceOf(_, _, _) => Ok(()),
        Phrase::BackOf(_, _, _) => Ok(()),
        Phrase::DaysOf(_, _) => Ok(()),
        Phrase::MondayOf(_) => Ok(()),
        Phrase::BeginningOf(_) => Ok(()),
        Phrase::OfMonth(_) => Ok(()),
        Phrase::Said(_) => Ok(()),
        Phrase::Numbered(counted) => out.push_str(end_in(language, counted)),
        Phrase::Lasting(unit) => push_two(out, " ", unit_in(language, unit, form)),
        Phrase::Also(unit) => push_two(out, " ", unit_in(language, unit, form)),
        Phrase::UntilHour(_) => out.push_str(":"),
        Phrase::UntilWeekday(_, _) => Ok(()),
        Phrase::UntilDate(_, month) => {
            push_three(
                out,
                date_ending_in(language, form),
                " ",
                month_in(language, month),
            )
        }
        Phrase::UntilFebruary(_) => Ok(()),
    }
}

#[tactic(auto, unfolding(crate::specs::Pieces::phrase_text))]
fn push_phrase(
    out: &mut String,
    language: Language,
    phrase: Phrase,
    n: u32,
) -> Result<(), AllocError>
    requires { IsWritten (figures_of phrase) n }
    ensures { OnOk result (string_bytes out.new ≡ string_bytes out.old ++ phrase_text language phrase n) }
{
    push_before(out, language, phrase)?;
    push_number(out, figures_of(phrase), n)?;
    push_after(out, language, phrase, form_of(n))
}

/// Appends the words of pieces.
pub fn push_pieces(out: &mut String, language: Language, pieces: &[Piece]) -> Result<(), AllocError>
    requires { AreWritten pieces.now }
    ensures { OnOk result (string_bytes out.new ≡ string_bytes out.old ++ text language pieces.now) }
{
    match pieces.split_first() {
        Some((piece, more)) => {
            push_phrase(out, language, piece.phrase, piece.number)?;
            push_pieces(out, language, more)
        }
        None => Ok(()),
    }
}
