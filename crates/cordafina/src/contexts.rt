// The contexts of a table as text: what the listing program prints at its end, for any count of lines.
ghost use Rattle.std.specs.Prelude.{◌≡◌, true};
ghost use Rattle.megaco.specs.Table.{most_lines};
ghost use Rattle.megaco.specs.Names.{within};
ghost use Rattle.cordafina.specs.Contexts.{contexts_of, Shown};

// The text's length in the low 32 bits, the number of the refusal in the high 32.
#[unsafe(no_mangle)]
pub extern "C" fn cordafina_contexts(lines: u32, table: &[u32], out: &mut [u8]) -> u64
    ensures { Shown (contexts_of lines table.now out.old) out.new result }
{
    if table::are_fitted(lines) {
        return contexts_fitted(lines, table, out);
    }
    8 * 4294967296
}

// The same with a good count of lines. No Result: C reads the length and the refusal from one number.
fn contexts_fitted(lines: u32, table: &[u32], out: &mut [u8]) -> u64
    requires { within lines most_lines ≡ true }
    ensures { Shown (contexts_of lines table.now out.old) out.new result }
{
    if out.len() < row::LEAST_OUTPUT {
        return 11 * 4294967296;
    }
    let n = table::words_of(lines);
    if table.len() != n {
        return 2 * 4294967296;
    }
    if sound::is_sound(table) {
        let size = sessions::put_contexts(out, 0, lines, table);
        return size as u64;
    }
    2 * 4294967296
}
