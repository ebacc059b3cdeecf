// Windows as rows of periods.
use std::io;
use windows::{Window, Windows};

// How a period of a window is drawn.
fn mark(window: Window, period: u8) -> char {
    if period < window.earliest || period > window.latest {
        '.'
    } else if window.earliest == window.latest {
        '*'
    } else {
        '#'
    }
}

// Draws one batch's window over the periods.
fn draw_row(rt: &HostRuntime, periods: u8, batch: usize, window: Window) -> io::Result<()> {
    print!(rt; "  {batch:>2} ")?;
    for period in 1..=periods {
        let c = mark(window, period);
        print!(rt; "{c}")?;
    }
    let Window { earliest, latest } = window;
    println!(rt; " {earliest}-{latest}")
}

// Draws a set of windows, a batch to a row.
pub(crate) fn draw(rt: &HostRuntime, windows: &Windows) -> io::Result<()> {
    for (k, &window) in windows.each().iter().enumerate() {
        draw_row(rt, windows.periods() as u8, k + 1, window)?;
    }
    Ok(())
}
