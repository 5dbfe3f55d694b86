//! The tables of rows that can be measured.

/// A table of rows.
#[derive(Clone, Copy)]
pub enum Table {
    /// Prepaid pages, and what they pay for without the lock.
    Prepaid,
    /// Commands that take the lock.
    System,
}

/// The tables with their names.
pub const TABLES: [(&str, Table); 2] = [("prepaid", Table::Prepaid), ("system", Table::System)];

/// The table of this name.
pub fn table_named(name: &str) -> Option<Table> {
    for (known, table) in TABLES {
        if known == name {
            return Some(table);
        }
    }
    None
}
