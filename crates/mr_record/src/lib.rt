//! Records of a map: their values, their bytes and their lines.
#![tactic(auto)]

mod bytes;
mod cutting;
mod decimal;
mod encoding;
mod front;
mod line;
mod numbers;
mod payload;
mod print;
mod reader;
mod record;
mod record_fault;
mod text;
mod text_fault;
mod version;

pub use bytes::{rect_bytes, rect_of_bytes, u32_of_bytes, u64_of_bytes, u128_of_bytes};
pub use cutting::cut;
pub use decimal::{read_i32, read_u64};
pub use encoding::{
    RECORD_LIMIT, encoded, read_record, read_record_of, read_record2, write_record,
    write_record_of, write_record2,
};
pub use line::{read_line, read_line_of, read_line2};
pub use payload::{PAYLOAD_LIMIT, Payload};
pub use print::{put_coordinate, put_number, write_line, write_line_of, write_line2, write_lines};
pub use reader::{LineReader, Memory, first_line, read_values};
pub use record::{LAYER_LIMIT, Record, are_records, is_record};
pub use record_fault::{RecordFault, RecordRule};
pub use text::{read_lines, read_lines_of, read_lines2};
pub use text_fault::{TextErr, TextFault, TextRule};
pub use version::Version;
