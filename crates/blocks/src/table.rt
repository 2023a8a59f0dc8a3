// The room of the kind table, 4,096 bytes: the n × n bytes of the table, then zeros. How many kinds there are is told from outside.
ghost use Rattle.std.specs.Prelude.{◌≡◌, ◌≤◌, length};
ghost use Rattle.blocks.specs.Layout.{table_room, room_with};
ghost use Rattle.blocks.specs.WellFormed.{table_fits};

use kinds::Table;

// Whether n is in range, the table passes the check of tables, and the bytes behind it are zero.
pub fn table_fits(room: &[u8], n: usize) -> bool
    requires { length room.now ≡ table_room }
    ensures { result ≡ table_fits n room.now }
{
    if !(2..=64).contains(&n) {
        return false;
    }
    let end = n * n;
    let table = Table {
        entries: &room[..end],
        n,
    };
    house::check(table).is_ok() && runs::is_zero(&room[end..])
}

// The table, and zeros behind it.
pub fn write_table(room: &mut [u8], table: &[u8])
    requires { (length room.old ≡ table_room) × (length table.now ≤ table_room) }
    ensures { room.new ≡ room_with table.now }
{
    runs::copy(&mut room[..table.len()], table);
    runs::repeat(&mut room[table.len()..], 0);
}
