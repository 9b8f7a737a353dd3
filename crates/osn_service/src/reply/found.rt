//! Days, runs of them, listed Easters and territories in a reply.
ghost use Rattle.osn_service.specs.ReplyText.{exception_data, found_data, found_run_data};
ghost use Rattle.osn_service.specs.ReplyText.{territory_data};

use crate::line_writer::LineWriter;
use crate::reply::date::{write_date_of, write_label};
use crate::reply::write_json::{WriteJson, write_member, write_source};
use osn_days::Calendar;
use osn_register::{Exception, Found, FoundRun, Land};
use std::alloc::AllocError;

impl WriteJson for Found {
    ghost json_value = { found_data };

    fn write_json(&self, out: &mut LineWriter) -> Result<(), AllocError> {
        let day = self.day;
        out.push_number(r#"{"day":"#, day.number())?;
        out.push_text(r#","dual":"#, self.dual.as_str())?;
        write_date_of(out, r#","gregorian":"#, Calendar::Gregorian, day)?;
        out.push_number(r#","jdn":"#, day.julian_day_number())?;
        write_date_of(out, r#","julian":"#, Calendar::Julian, day)?;
        write_label(out, r#","label":"#, self.label)?;
        out.push_text(r#","weekday":"#, day.weekday().name())?;
        out.push("}")
    }
}

impl WriteJson for FoundRun {
    ghost json_value = { found_run_data };

    fn write_json(&self, out: &mut LineWriter) -> Result<(), AllocError> {
        write_member(out, r#"{"first":"#, &self.first)?;
        write_member(out, r#","last":"#, &self.last)?;
        out.push("}")
    }
}

impl WriteJson for Exception {
    ghost json_value = { exception_data };

    fn write_json(&self, out: &mut LineWriter) -> Result<(), AllocError> {
        write_member(out, r#"{"found":"#, &self.found)?;
        write_source(out, &self.source)?;
        out.push_number(r#","year":"#, self.year.number())?;
        out.push("}")
    }
}

impl WriteJson for Land {
    ghost json_value = { territory_data };

    fn write_json(&self, out: &mut LineWriter) -> Result<(), AllocError> {
        out.push_text(r#"{"code":"#, self.code.as_str())?;
        out.push_text(r#","name":"#, self.name.as_str())?;
        out.push("}")
    }
}
