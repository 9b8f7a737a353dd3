//! The figures of a year in a reply.
ghost use Rattle.serde_json.specs.Data.{string};
ghost use Rattle.osn_computus.specs.FigureTexts.{epact_text};
ghost use Rattle.osn_service.specs.ReplyText as spec;
ghost use Rattle.osn_request.specs.Json.{whole};

use crate::line_writer::LineWriter;
use crate::reply::write_json::{WriteJson, write_member};
use osn_computus::{Epact, Letters, epact_text, letters_text};
use osn_days::Day;
use std::alloc::AllocError;

impl WriteJson for u8 {
    ghost json_value = { whole };

    fn write_json(&self, out: &mut LineWriter) -> Result<(), AllocError> {
        out.push_number("", u32::from(*self))
    }
}

// An epact of the Gregorian reckoning as the canons write it: `*`, `25'` or its number.
impl WriteJson for Epact {
    ghost json_value = { λ e. string (epact_text e) };

    fn write_json(&self, out: &mut LineWriter) -> Result<(), AllocError> {
        let text = epact_text(out.alloc(), *self)?;
        out.push_text("", text.as_str())
    }
}

/// The figures of a year by one rule, with the epact of its reckoning.
#[derive(Drop)]
pub(crate) struct Reckoning<E> {
    pub(crate) easter: Day,
    pub(crate) epact: E,
    pub(crate) letters: Letters,
}

impl<E: WriteJson> WriteJson for Reckoning<E> {
    ghost json_value = { λ r. spec.reckoning_data r.easter (E.json_value r.epact) r.letters };

    fn write_json(&self, out: &mut LineWriter) -> Result<(), AllocError> {
        out.push_number(r#"{"easter":"#, self.easter.number())?;
        write_member(out, r#","epact":"#, &self.epact)?;
        let letters = letters_text(out.alloc(), self.letters)?;
        out.push_text(r#","letters":"#, letters.as_str())?;
        out.push("}")
    }
}
