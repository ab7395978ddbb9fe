//! What a core says and does, as text: a line for each message, each call that is delivered, and each that has ended.

use rpc_machine::Effects;
use rpc_msg::Vat;
use scenes_words::{letter, write_delivery, write_ended, write_message};
use std::alloc::AllocError;
use std::fmt::Write;

pub fn write_effects(text: &mut String, vat: Vat, effects: &Effects) -> Result<(), AllocError> {
    for message in &effects.sends {
        write!(text, "{}> ", letter(vat))?;
        write_message(text, message)?;
        text.push('\n')?;
    }
    for delivery in &effects.deliveries {
        write_delivery(text, vat, delivery)?;
        text.push('\n')?;
    }
    for ended in &effects.answers {
        write_ended(text, vat, ended)?;
        text.push('\n')?;
    }
    if let Some(number) = effects.down {
        writeln!(text, "{}: down {number}", letter(vat))?;
    }
    Ok(())
}
