// What requests set up: it stays until it is set up anew.
ghost use Rattle.std.specs.Prelude.{◌≡◌, ◌≤◌, [], length, IfSome};

use crate::numbers;
use crate::requests::Setting;
use crate::texts::Text;
use lending::tables::Tables;

#[derive(Drop)]
pub struct Setup {
    pub text: Text,
    pub tables: Tables,
}

impl Setup {
    pub fn new() -> Setup
        ensures text { result.text ≡ [] }
        ensures types { result.tables.type_count ≡ 0 }
        ensures rows { result.tables.row_count ≡ 0 }
    {
        Setup {
            text: Text::empty(),
            tables: Tables::new(),
        }
    }

    // Bytes and a line feed: the bytes added to the text so many times.
    fn add<'a>(&mut self, times: u64, long: usize, s: &'a [u8]) -> Option<&'a [u8]>
        ensures { IfSome result (λ rest. length rest.now ≤ length s.now) }
    {
        let (bytes, after) = s.split_at_checked(long)?;
        let rest = after.strip_prefix(b"\n")?;
        match bytes {
            [] => {}
            [byte] => self.text.add_repeated(*byte, times as usize)?,
            _ => {
                for _ in 0..times {
                    self.text.add(bytes)?;
                }
            }
        }
        Some(rest)
    }

    // A request done, and what follows it in the input.
    pub fn set<'a>(&mut self, setting: Setting, s: &'a [u8]) -> Option<&'a [u8]>
        ensures { IfSome result (λ rest. length rest.now ≤ length s.now) }
    {
        let tables = &mut self.tables;
        match setting {
            Setting::Text => self.text.clear(),
            Setting::Bytes { times, length } => return self.add(times, length, s),
            Setting::Types(count) => return numbers::fill(s, &mut tables.types, count),
            Setting::Rows(count) => return numbers::fill(s, &mut tables.rows, count),
            Setting::Due(count) => return numbers::fill(s, &mut tables.due, count),
            Setting::Areas(lent) => tables.lent = lent,
            Setting::Counts { types, rows } => {
                tables.type_count = types;
                tables.row_count = rows;
            }
        }
        Some(s)
    }
}
