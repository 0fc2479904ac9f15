// What the program is asked: its arguments, as numbers, windows and notices.
use crate::failure::Failure;
use layers::gate::Window;
use layers::late::Notice;
use std::env;
use std::str::FromStr;

#[derive(Drop)]
pub struct Asked {
    pub file: String,
    pub origin: u8,
    pub destination: u8,
    pub start: u32,
    pub latest: u32,
    pub windows: Vec<Window>,
    pub notices: Vec<Notice>,
}

fn number<T: FromStr>(word: &str) -> Result<T, Failure>
where
    T::Err: Drop,
{
    word.parse::<T>().map_err(|_| Failure::NotANumber)
}

fn window(word: &str) -> Result<Window, Failure> {
    let mut parts = word.split(',');
    match (parts.next(), parts.next(), parts.next(), parts.next()) {
        (Some(edge), Some(from), Some(until), None) => Ok(Window {
            edge: number(edge)?,
            from: number(from)?,
            until: number(until)?,
        }),
        _ => Err(Failure::NotANumber),
    }
}

fn notice(word: &str) -> Result<Notice, Failure> {
    let (edge, seconds) = word.split_once(',').ok_or(Failure::NotANumber)?;
    Ok(Notice {
        edge: number(edge)?,
        seconds: number(seconds)?,
    })
}

impl Asked {
    // Takes over one option with its value. A match tells their names apart: a table of functions would have the same rows.
    fn add(&mut self, option: &str, value: &str) -> Result<(), Failure> {
        match option {
            "--window" => self.windows.push(window(value)?)?,
            "--late" => self.notices.push(notice(value)?)?,
            _ => return Err(Failure::UnknownOption),
        }
        Ok(())
    }

    pub fn read(rt: &HostRuntime) -> Result<Asked, Failure> {
        let mut args = env::args(rt)?;
        let _program = args.next();
        let file = args.next().ok_or(Failure::Usage)?;
        let origin = number(&args.next().ok_or(Failure::Usage)?)?;
        let destination = number(&args.next().ok_or(Failure::Usage)?)?;
        let start = number(&args.next().ok_or(Failure::Usage)?)?;
        let latest = number(&args.next().ok_or(Failure::Usage)?)?;
        let mut asked = Asked {
            file,
            origin,
            destination,
            start,
            latest,
            windows: Vec::new(rt.alloc()),
            notices: Vec::new(rt.alloc()),
        };
        let options = args.collect::<Vec<_>>(rt.alloc())?;
        for pair in options.chunks(2) {
            let [option, value] = pair else {
                return Err(Failure::Usage);
            };
            asked.add(option, value)?;
        }
        Ok(asked)
    }
}
