// Plays a take for each list of the forecast table, steps on to its STOP, and prints the lines and the channel's own cycles.

#![tactic(auto)]

use chip::Chip;
use common::answer::{DONE, Refusal};
use editors::Owners;
use length_line::{Length, Line};
use sound::{Access, Accesses};
use take::Record;

// More lines than any of the lists takes.
const MOST: u64 = 1000;

// The processor off the 8255.
const OFF: Accesses = Accesses {
    first: Access::Off,
    second: Access::Off,
    third: Access::Off,
};

// A list of the table, with words that are never reached after its STOP, and its prescale.
#[derive(Clone, Copy)]
struct Row {
    words: [u16; 5],
    prescale: u8,
}

// The rows of the table.
const ROWS: [Row; 7] = [
    Row {
        words: [0x4020, 0, 0, 0, 0],
        prescale: 0,
    },
    Row {
        words: [0x0738, 0x1002, 0x4020, 0, 0],
        prescale: 0,
    },
    Row {
        words: [0x0738, 0x1002, 0x4020, 0, 0],
        prescale: 2,
    },
    Row {
        words: [0x2003, 0x080F, 0x4001, 0x4020, 0],
        prescale: 0,
    },
    Row {
        words: [0x2001, 0x1003, 0x4001, 0x4001, 0x4020],
        prescale: 1,
    },
    Row {
        words: [0x1000, 0x4020, 0, 0, 0],
        prescale: 5,
    },
    Row {
        words: [0x2005, 0x4031, 0, 0, 0],
        prescale: 0,
    },
];

// The words of a list at 8000h.
fn put_list(ram: &mut [u8; 65536], words: [u16; 5]) {
    for (word, place) in words.iter().zip(ram[0x8000..].chunks_exact_mut(2)) {
        place.copy_from_slice(&word.to_le_bytes());
    }
}

// The calls that enable channel 0 at 8000h: the chip unlocked by bytes to BCxx, the page mapped, start address, prescale and enable.
fn calls(prescale: u8) -> [u64; 22] {
    [
        (1, 0, 0x01),
        (1, 0, 0x00),
        (1, 0, 0xFF),
        (1, 0, 0x77),
        (1, 0, 0xB3),
        (1, 0, 0x51),
        (1, 0, 0xA8),
        (1, 0, 0xD4),
        (1, 0, 0x62),
        (1, 0, 0x39),
        (1, 0, 0x9C),
        (1, 0, 0x46),
        (1, 0, 0x2B),
        (1, 0, 0x15),
        (1, 0, 0x8A),
        (1, 0, 0xCD),
        (1, 0, 0xEE),
        (3, 0, 0xB8),
        (4, 0x6C00, 0x00),
        (4, 0x6C01, 0x80),
        (4, 0x6C02, prescale),
        (4, 0x6C0F, 1),
    ]
    .map(|(kind, address, value)| {
        take::pack(Record {
            line: 0,
            kind,
            address,
            value,
        })
    })
}

// Goes on where a call is served, and else gives the number with which it is refused.
fn served(answer: u8) -> Result<(), u8> {
    if answer == DONE { Ok(()) } else { Err(answer) }
}

// The chip after the take of these calls. No start is among them, so that the owners say nothing.
fn played(ram: &[u8; 65536], prescale: u8) -> Result<Chip, u8> {
    let mut file = [0; 196];
    served(take::write(b"forecast", &calls(prescale), &mut file).answer)?;
    let owners = Owners {
        palette: 0,
        sprites: 0,
        channels: 0,
    };
    let told = replay::replay(
        ram,
        &mut [0; 4096],
        &mut [0; 256],
        &mut [0; 256],
        owners,
        &file,
    );
    served(told.answer)?;
    Ok(told.chip)
}

// Lines stepped on to the STOP of channel 0, and the channel's own cycles on them. Where no STOP comes the number is that of a list
// without one.
fn stepped_on(mut chip: Chip, ram: &[u8; 65536]) -> Result<Length, u8> {
    let store = [0; 4096];
    let mut line = [0; 640];
    let mut cycles = 0;
    for lines in 0..MOST {
        if !chip.sound.channels[0].enabled {
            return Ok(Length { lines, cycles });
        }
        let told = line::line(chip, ram, &store, &mut line, OFF);
        served(told.answer)?;
        chip = told.chip;
        cycles += u64::from(told.report.entries[0].own_cycles(Access::Off));
    }
    Err(Refusal::NoStop.number())
}

// What a row of the table comes to.
fn row_played(ram: &[u8; 65536], prescale: u8) -> Result<Length, u8> {
    stepped_on(played(ram, prescale)?, ram)
}

fn main(rt: HostRuntime) {
    let mut ram = [0; 65536];
    for row in &ROWS {
        put_list(&mut ram, row.words);
        // what can't be written is passed over
        let _ = println!(rt; "{}", Line(row_played(&ram, row.prescale)));
    }
}
