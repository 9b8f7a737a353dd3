//! Feasts in a reply.
ghost use Rattle.osn_service.specs.ReplyText.{found_feast_data};

use crate::line_writer::LineWriter;
use crate::reply::write_json::{WriteJson, write_member};
use osn_register::FoundFeast;
use std::alloc::AllocError;

impl WriteJson for FoundFeast {
    ghost json_value = { found_feast_data };

    fn write_json(&self, out: &mut LineWriter) -> Result<(), AllocError> {
        out.push_text(r#"{"feast":"#, self.feast.name())?;
        write_member(out, r#","found":"#, &self.found)?;
        out.push_number(r#","year":"#, self.year.number())?;
        out.push("}")
    }
}
