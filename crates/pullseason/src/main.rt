// Program `pullseason`: reads a season's file from standard input, to its end, and prints of each series, when it is closed, its tests and the worst of the latest twenty, or the number that refuses it.
#![tactic(auto)]

ghost use Rattle.std.specs.Prelude.{◌≤◌, length};
ghost use Rattle.records_season.specs.joints.SeasonCame.{season_as, SeasonArrives, piece_room};

use records_season::{PIECE_ROOM, Season};
use std::io::Read;
use std::rt::Stdin;

// The next piece of standard input: what is there of it, 4,096 bytes at most, so that nothing is waited for once a series is closed. Where there is nothing more it has ended, and that is answered. What a piece adds to the text is written at
// once: 256 records are whole with such a piece, and a series' text has 462 bytes at most.
fn next_piece(mut input: Stdin, season: &mut Season, out: &mut [u8]) -> bool
    requires { SeasonArrives (season_as season.old) × (piece_room ≤ length out.old) }
    ensures { SeasonArrives (season_as season.new) }
{
    let mut piece = io::buffer();
    let n = match input.read(&mut piece) {
        Ok(n) => n,
        Err(_) => 0,
    };
    let written = season.feed(&piece[..n], out);
    io::write_all(1, &out[..written]);
    n == 0
}

// All of standard input. A proved loop has to end, and nothing says that an input does: so the pieces are counted, up to a number that no run reaches.
fn read_all(input: Stdin, season: &mut Season, out: &mut [u8])
    requires { SeasonArrives (season_as season.old) × (piece_room ≤ length out.old) }
    ensures { SeasonArrives (season_as season.new) }
{
    for _piece in 0..u64::MAX {
        if next_piece(input, season, out) {
            return;
        }
    }
}

// What is kept of the open series has room for every cell within the panel's limits, as in `pulltest`.
fn main(rt: HostRuntime) {
    let mut season = Season::new();
    let mut out = [0u8; PIECE_ROOM];
    read_all(rt.stdin(), &mut season, &mut out);
    let m = records_season::end(season.arrival, &mut out, 0);
    io::write_all(1, &out[..m]);
}
