// Prints the table of ones as its maker makes it: 256 lines of 16 bytes.
#![tactic(auto)]

ghost use Rattle.std.specs.Prelude.{◌≡◌};
ghost use Rattle.maker.specs.OnesText.{ones_text};

use std::io;

// Nothing but the text of the table is written.
fn print(out: &impl Print, text: &[u8]) -> io::Result<()>
    requires { text.now ≡ ones_text }
{
    out.write_all(text)
}

fn main(rt: HostRuntime) -> io::Result<()> {
    let text = maker::table_text();
    print(&rt.stdout(), &text)
}
