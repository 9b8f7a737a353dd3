//! Changes in a reply.
ghost use Rattle.osn_service.specs.ReplyText.{change_data};

use crate::line_writer::LineWriter;
use crate::reply::write_json::{WriteJson, write_member, write_source};
use osn_register::FoundChange;
use std::alloc::AllocError;

impl WriteJson for FoundChange {
    ghost json_value = { change_data };

    fn write_json(&self, out: &mut LineWriter) -> Result<(), AllocError> {
        write_member(out, r#"{"before":"#, &self.before)?;
        write_member(out, r#","found":"#, &self.found)?;
        write_member(out, r#","left_out":"#, &self.left_out)?;
        write_member(out, r#","regime":"#, &self.regime)?;
        write_member(out, r#","regime_before":"#, &self.regime_before)?;
        write_source(out, &self.source)?;
        write_member(out, r#","twice":"#, &self.twice)?;
        out.push("}")
    }
}
