// Reads a run file from standard input, and prints it as text: its overhead, if that is not 0, its flows and
// events, a line each, or the line of its refusal (textform::show::show_text).
#![tactic(auto)]

fn main() {
    // one byte more than a run file may have, so that a file too long is seen to be
    let mut file = [0; 12289];
    let n = io::read_full(0, &mut file);
    let mut text = [0; textform::show::SHOWN_ROOM];
    let size = textform::show::show_text(&file[..n], &mut text);
    io::write_all(1, &text[..size]);
}
