//! Regimes and periods in a reply.
ghost use Rattle.osn_service.specs.ReplyText.{regime_data, period_data};

use crate::line_writer::LineWriter;
use crate::reply::write_json::{WriteJson, write_source};
use osn_days::Keyword;
use osn_register::PeriodAndSource;
use osn_territory::Regime;
use std::alloc::AllocError;

impl WriteJson for Regime {
    ghost json_value = { regime_data };

    fn write_json(&self, out: &mut LineWriter) -> Result<(), AllocError> {
        out.push_text(r#"{"calendar":"#, self.calendar.word())?;
        out.push_text(r#","rule":"#, self.rule.word())?;
        out.push_text(r#","style":"#, self.style.word())?;
        out.push("}")
    }
}

impl WriteJson for PeriodAndSource {
    ghost json_value = { period_data };

    fn write_json(&self, out: &mut LineWriter) -> Result<(), AllocError> {
        let period = self.period;
        out.push_text(r#"{"calendar":"#, period.regime.calendar.word())?;
        out.push_number(r#","first":"#, period.first.number())?;
        out.push_number(r#","last":"#, period.last.number())?;
        out.push_text(r#","rule":"#, period.regime.rule.word())?;
        write_source(out, &self.source)?;
        out.push_text(r#","style":"#, period.regime.style.word())?;
        out.push("}")
    }
}
