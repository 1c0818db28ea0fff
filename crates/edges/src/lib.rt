// Tests of sessions at the edges of their rules. There is nothing here but tests.

#![tactic(auto)]

#[cfg(test)]
mod answer;
#[cfg(test)]
mod desk;
#[cfg(test)]
mod layout;
#[cfg(test)]
mod market_data;
#[cfg(test)]
mod moments;
#[cfg(test)]
mod play;
#[cfg(test)]
mod releases;
#[cfg(test)]
mod settled;
#[cfg(test)]
mod step;
#[cfg(test)]
mod strays;
#[cfg(test)]
mod submits;
