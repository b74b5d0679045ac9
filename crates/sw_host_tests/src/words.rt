use std::alloc::Global;
use std::test::Fail;
use sw_clap_words::read_serve;
use sw_outside::NoMemory;
use sw_words::ServeOptions;

const AT_8080: Option<ServeOptions> = Some(ServeOptions {
    port: 8080,
    workers: 1,
    connections: 20,
    passes: 0,
});

const LEAST: Option<ServeOptions> = Some(ServeOptions {
    port: 1,
    workers: 1,
    connections: 1,
    passes: 0,
});

const GREATEST: Option<ServeOptions> = Some(ServeOptions {
    port: 65_535,
    workers: 1,
    connections: 65_536,
    passes: 0,
});

/// Words with a space between each two, so that two spaces are around an empty word, and what they ask for.
const ROWS: [(&'static str, Option<ServeOptions>); 36] = [
    (
        "serve S --port 8080 --workers 1 --connections 20 --passes 0",
        AT_8080,
    ),
    (
        "serve S --passes 0 --connections 20 --workers 1 --port 8080",
        AT_8080,
    ),
    (
        "serve S --workers 1 --port 8080 --passes 0 --connections 20",
        AT_8080,
    ),
    (
        "serve ring.json --port 1 --workers 1 --connections 1 --passes 0",
        LEAST,
    ),
    (
        "serve S --port 65535 --workers 1 --connections 65536 --passes 0",
        GREATEST,
    ),
    (
        "serve S --port 00000000000000008080 --workers 01 --connections 020 --passes 000",
        AT_8080,
    ),
    (
        "serve serve --port 8080 --workers 1 --connections 20 --passes 0",
        AT_8080,
    ),
    (
        "serve  --port 8080 --workers 1 --connections 20 --passes 0",
        AT_8080,
    ),
    ("", None),
    ("serve", None),
    ("serve S", None),
    (
        "run S --port 8080 --workers 1 --connections 20 --passes 0",
        None,
    ),
    (
        "serve --port 8080 --workers 1 --connections 20 --passes 0",
        None,
    ),
    (
        "serve -S --port 8080 --workers 1 --connections 20 --passes 0",
        None,
    ),
    (
        "serve --port 8080 --workers 1 --connections 20 --passes 0 S",
        None,
    ),
    ("serve S --port 8080 --workers 1 --connections 20", None),
    (
        "serve S --port 8080 --workers 1 --connections 20 --passes",
        None,
    ),
    (
        "serve S --port 8080 --workers 1 --connections 20 --passes 0 T",
        None,
    ),
    (
        "serve S --port 8080 --workers 1 --connections 20 --passes 0 --help",
        None,
    ),
    (
        "serve S --port 8080 --workers 1 --connections 20 --passes 0 --port 8080",
        None,
    ),
    (
        "serve S --port 8080 --port 8080 --connections 20 --passes 0",
        None,
    ),
    (
        "serve S --port=8080 --workers 1 --connections 20 --passes 0",
        None,
    ),
    (
        "serve S --po 8080 --workers 1 --connections 20 --passes 0",
        None,
    ),
    (
        "serve S --Port 8080 --workers 1 --connections 20 --passes 0",
        None,
    ),
    (
        "serve S --port 0 --workers 1 --connections 20 --passes 0",
        None,
    ),
    (
        "serve S --port 65536 --workers 1 --connections 20 --passes 0",
        None,
    ),
    (
        "serve S --port 000000000000000008080 --workers 1 --connections 20 --passes 0",
        None,
    ),
    (
        "serve S --port 99999999999999999999 --workers 1 --connections 20 --passes 0",
        None,
    ),
    (
        "serve S --port +1 --workers 1 --connections 20 --passes 0",
        None,
    ),
    (
        "serve S --port  --workers 1 --connections 20 --passes 0",
        None,
    ),
    (
        "serve S --port 8080 --workers 0 --connections 20 --passes 0",
        None,
    ),
    (
        "serve S --port 8080 --workers 17 --connections 20 --passes 0",
        None,
    ),
    (
        "serve S --port 8080 --workers 1 --connections 0 --passes 0",
        None,
    ),
    (
        "serve S --port 8080 --workers 1 --connections 65537 --passes 0",
        None,
    ),
    // These can be written, and aren't offered yet.
    (
        "serve S --port 8080 --workers 2 --connections 20 --passes 0",
        None,
    ),
    (
        "serve S --port 8080 --workers 1 --connections 20 --passes 1",
        None,
    ),
];

fn words_of(alloc: Global, text: &str) -> Result<Vec<String>, NoMemory> {
    let mut words = Vec::new(alloc);
    if !text.is_empty() {
        for word in text.split(' ') {
            words.push(String::from_str(alloc, word)?)?;
        }
    }
    Ok(words)
}

fn asks_for(alloc: Global, text: &str, wanted: Option<ServeOptions>) -> Result<bool, NoMemory> {
    let words = words_of(alloc, text)?;
    Ok(read_serve(alloc, words.as_slice())? == wanted)
}

#[test]
fn the_words_of_serve_ask_for_what_they_write_by_both_readings(
    rt: HostRuntime,
) -> Result<(), Fail> {
    for (text, wanted) in ROWS {
        assert!(rt; asks_for(rt.alloc(), text, wanted)?, "{text}");
    }
    Ok(())
}
