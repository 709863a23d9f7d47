//! What a call for help is answered, behind the usage.

const HELP: &str = "
  lighttpd [-D] -f CONF               serve clients until the process is ended
  lighttpd [-D] -t -f CONF            check a configuration
  lighttpd [-D] -p -f CONF            print a configuration in its normal form
  lighttpd replay -f CONF SCRIPT      serve the clients of a script, and report what they got
  lighttpd bench NUMBER               serve so many clients, 1 to 10000, of a script that is made for them, and sum up what
                                      they got

For example:
  lighttpd -t -f lighttpd.conf
  lighttpd -D -f lighttpd.conf
  lighttpd -p -f lighttpd.conf
  lighttpd replay -f hello.conf hello.script
  lighttpd bench 1000";

/// Whether a word asks for help.
pub fn asks_for_help(words: &[String]) -> bool {
    words.iter().any(|word| is_help(word.as_str()))
}

fn is_help(word: &str) -> bool {
    word == "-h" || word == "--help" || word == "help"
}

/// Says on standard error which lines there are, with an example of each.
pub fn help<R: Eprint>(rt: &R) {
    // Where standard error takes nothing, the number tells it alone.
    let _ = eprintln!(rt; "{HELP}");
}
